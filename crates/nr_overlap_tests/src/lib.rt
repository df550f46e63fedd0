//! Tests of the core, of the exchange and of the workers. The core runs over two chains of small chunks: one whose
//! receipts are numbers, with its tokens, and one whose chunks tell which lists they took. The exchange runs over two
//! shards, and the workers over the second of these chains.
#![tactic(auto)]

mod answer;
mod bag;
#[cfg(test)]
mod exchange;
mod meeting;
mod pair;
mod roll;
mod roll_call;
#[cfg(test)]
mod rolls;
mod small_chain;
mod small_chunk;
#[cfg(test)]
mod steps;
mod sums;
#[cfg(test)]
mod workers;

pub use answer::{Answer, Gave, Round};
pub use bag::Bag;
pub use meeting::Meeting;
pub use pair::{Chunk, Pair, Sent};
pub use roll::Roll;
pub use roll_call::{Calling, Last, Name};
pub use small_chain::SmallChain;
pub use sums::everything_adds_up;
