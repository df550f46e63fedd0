//! The file of a gathered chunk: what a chunk is run again from, without the state before it.
#![tactic(auto)]

mod fault;
mod files;
mod gathered;
mod laws;

pub use fault::GatheredFault;
pub use files::{read_gathered, write_gathered};
pub use gathered::Gathered;
pub use laws::gathered_laws;
