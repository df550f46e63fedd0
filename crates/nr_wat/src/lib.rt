//! The text of a module in WebAssembly's text format (Core 1.0), flat: a line for each field and each instruction.
#![tactic(auto)]

mod code;
mod fields;
mod functions;
mod laws;
mod names;
mod operands;
mod pieces;

pub use fields::write_text;
pub use functions::is_function;
pub use laws::names_law;
