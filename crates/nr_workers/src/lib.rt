//! Shards that run beside each other, each in a thread of its own. A worker goes through the heights of its shard: it
//! opens each chunk that is there, takes the lists that are due from the exchange, seals it and publishes its lists.
//! Whatever the threads do, what they come to is the serial run.
#![tactic(auto)]

mod crew;
mod done;
mod gate;
mod gather;
mod inbox;
pub mod laws;
mod left;
mod shards;
mod steps;
mod worker;

pub use done::Finished;
pub use gate::{Gate, Moment, OpenGate};
pub use shards::run_shards;
