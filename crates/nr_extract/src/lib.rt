//! Chunks of a chain taken out of its run, each with all that it is run again from.
#![tactic(auto)]

mod accounts;
mod extracting;
mod reaching;
mod receipts;

pub use extracting::{chunk_behind, extract};
pub use reaching::run_up_to;
