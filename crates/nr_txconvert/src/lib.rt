//! How a transaction becomes a receipt, or why it doesn't.
#![tactic(auto)]

mod conversion;
mod converted;
mod cost;
mod fault;
pub mod laws;
mod refusals;
mod threads;

pub use conversion::{convert, convert_hashed};
pub use converted::Converted;
pub use fault::TxFault;
