//! Where a run of a method traps: the function and the instruction, and the place of its opcode in the module's bytes.
#![tactic(auto)]

mod count;
mod following;
mod offset;
mod placing;
mod rest;
mod tracing;
mod trail;
mod way;

pub use offset::find_instruction;
pub use tracing::trace;
pub use trail::TraceStop;
