//! Where in the chain a chunk stands.

use nr_ids::Height;

/// Where in the chain a chunk stands.
#[derive(Clone, Copy, Debug, PartialEq, Eq)]
pub struct Place {
    /// The height of its block, from 1.
    pub height: Height,
    /// The time of its block, in nanoseconds.
    pub timestamp: u64,
    /// Tokens for a unit of gas.
    pub price: u64,
}
