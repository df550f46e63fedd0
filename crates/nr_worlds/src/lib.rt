//! Which entries of a trie are those of a valid world, and which are those of a delayed queue.
#![tactic(auto)]

mod accounts;
mod fault;
pub mod laws;
mod queue;
mod tokens;
mod told;
mod waiting;
mod world;

pub use fault::WorldFault;
pub use queue::check_queue;
pub use world::check_world;
