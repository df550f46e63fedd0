//! What one chunk is run again from.

use nr_bytes::{Blob, List};
use nr_ids::{Hash32, Height, ShardId};
use nr_layout::Layout;
use nr_records::{Receipt, Transaction};

/// What a chunk is run again from: all that it takes, and the texts of the trie that it looks at.
#[derive(Debug, PartialEq, Eq, Drop)]
pub struct Gathered {
    /// The root of the shard's state before the chunk. It is 32 zeros where that state is empty.
    pub prior_root: Hash32,
    /// The boundaries between the shards at the chunk's height.
    pub layout: Layout,
    /// The chunk's height.
    pub height: Height,
    /// Its block's time, in nanoseconds.
    pub timestamp: u64,
    /// What a unit of gas costs in it, in the smallest unit of the ledger. Without one it is the
    /// configuration's.
    pub price: Option<u64>,
    /// The chunk's shard.
    pub shard: ShardId,
    /// The chunk's transactions.
    pub transactions: List<Transaction>,
    /// The receipts that the chunk takes, those that were carried to it first.
    pub taken: List<Receipt>,
    /// The texts of nodes and values, each of them the text of its SHA-256.
    pub texts: List<Blob>,
}
