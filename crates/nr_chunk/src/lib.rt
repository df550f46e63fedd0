//! The chunks of a chain: each is opened on the world of its shard, takes the lists of receipts that are due to it, and
//! is sealed.
#![tactic(auto)]

mod chain;
mod chunk_work;
mod chunk_world;
mod executing;
pub mod laws;
mod lines;
mod opening;
mod phases;
mod refused;
mod root;
mod sealing;
mod serving;
mod start;
mod state;
mod tally;
mod threads;
mod work;

pub use chain::ChainRun;
pub use chunk_work::ChunkWork;
pub use chunk_world::ChunkWorld;
pub use start::Resumed;
pub use state::ChunkStore;
pub use tally::{Tally, tally_report};
