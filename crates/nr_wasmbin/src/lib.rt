//! Decoding of WebAssembly modules (Core 1.0, integers alone).
#![tactic(auto)]

mod body;
mod cursor;
mod expression;
mod fault;
mod item;
mod kinds;
mod leb;
mod module;
mod parts;
mod plain;
mod section;

pub use body::read_locals;
pub use cursor::Cursor;
pub use fault::DecodeFault;
pub use kinds::{decode_kind, decode_place};
pub use module::{Front, Middle, decode, read_front, read_middle, read_word};
pub use plain::{read_block_type, read_plain};
pub use section::enter;
