//! The state of a shard: a world over any store, which holds exactly the world's trie entries.
#![tactic(auto)]

mod accounts;
mod calls;
mod contents;
pub mod laws;
pub mod listings;
mod place;
pub mod queues;
mod state;
mod threads;
pub mod usage;

pub use calls::{CallContext, CallEnd, CallStop, Caller, Returned};
pub use nr_columns::{Entry, SpelledKey, keys};
pub use place::Place;
pub use state::ShardState;
