//! WebAssembly validation: typing of instruction sequences, the checker that keeps two stacks, and the
//! rules of a module's parts.
#![tactic(auto)]

mod body;
mod demand;
mod entries;
mod fault;
mod frame;
mod functions;
mod kinds;
mod locals;
mod parts;
mod plain;
mod refusal;
mod stacks;
mod threads;
mod typing;
mod valid;

pub use fault::ValidFault;
pub use kinds::{valid_func, valid_kind, valid_place};
pub use valid::{Valid, running_laws, validate};
