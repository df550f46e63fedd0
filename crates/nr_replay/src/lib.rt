//! The replay of a chain by threads, one for each shard. What is written is the serial run's, whatever the threads do.
#![tactic(auto)]

mod hashing;
mod text;
mod top;
mod written;

pub use top::replay;
