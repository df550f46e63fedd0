//! A part of a shard's state.

use nr_bytes::{Blob, List};
use nr_columns::Entry;
use nr_ids::Hash32;

/// One of the parts of a shard's state: its entries, and the texts of the trie's nodes by which they
/// can be checked against the root.
#[derive(Debug, Drop)]
pub struct Part {
    pub root: Hash32,
    /// How many parts there are. A part that is accepted has a count of 1 to 10,000.
    pub count: u32,
    /// Which of them this is, from 0. It is below the count in a part that is accepted.
    pub number: u32,
    pub entries: List<Entry>,
    pub texts: List<Blob>,
}
