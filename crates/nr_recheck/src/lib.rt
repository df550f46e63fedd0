//! A chunk that is run again without its shard's state, from the texts of nodes and values that it looks at.
#![tactic(auto)]

mod bounds;
mod fault;
mod knowing;
pub mod laws;
mod rechecking;
mod resuming;
mod running;
mod walking;

pub use fault::RecheckFault;
pub use rechecking::recheck;
