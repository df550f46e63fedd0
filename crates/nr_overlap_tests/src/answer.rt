//! What a shard is answered, and what a test of the ring gives.

use crate::pair::Sent;

/// An answer to a shard that asks for a list.
#[derive(Clone, Copy, Debug, PartialEq, Eq)]
pub enum Answer {
    List(Sent),
    /// The source gave up after so many heights.
    GivenUp(u64),
    /// The source has published so many heights.
    NotYet(u64),
}

/// An answer to a shard that tries to publish.
#[derive(Clone, Copy, Debug, PartialEq, Eq)]
pub enum Gave {
    Published,
    /// There is no room for the list to a shard, which took so many.
    Full { dest: u32, taken: u64 },
}

/// What a shard that is one list ahead of the ring meets, and what both shards take of it.
#[derive(Clone, Copy, Debug, PartialEq, Eq)]
pub struct Round {
    pub first: Gave,
    pub own: Answer,
    pub second: Gave,
    pub other: Answer,
    pub third: Gave,
}
