//! What the bindings of a contract read and write beside the ledger: registers and byte arguments.
#![tactic(auto)]

mod arguments;
mod fault;
mod registers;

pub use arguments::{argument, argument_size};
pub use fault::GuestFault;
pub use registers::Registers;
