//! The functions that a contract calls, its bindings: each is a row of burns, reads, faults and effects over
//! the ledger, the promises, the registers and the memory of the call.
#![tactic(auto)]

mod answer;
mod arguments;
mod callee;
mod context;
mod context_rows;
mod fees;
mod gas;
mod hashes;
mod host;
mod logs;
mod promise_actions;
mod promise_arguments;
mod promises;
mod registers;
mod seen;
mod stops;
mod storage;
mod texts;

pub use context::HostContext;
pub use seen::{Gas, HostState, ShownWorld};
