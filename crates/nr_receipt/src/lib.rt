//! How a receipt of actions is executed, and how one is settled that clashes.
#![tactic(auto)]

mod drawing;
mod executed;
mod execution;
mod frames;
mod gas;
pub mod laws;
mod results;
mod reward;
mod running;
mod settlement;
mod threads;

pub use executed::Executed;
pub use execution::execute;
pub use settlement::settle_clash;
