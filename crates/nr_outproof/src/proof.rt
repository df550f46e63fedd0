//! The proof that a chunk has an item at a place.

use nr_bytes::{Blob, List};
use nr_ids::{Hash32, Height, ShardId};
use nr_words::ProofKind;

/// That an item stands at a place among the items of a chunk.
#[derive(Debug, Drop)]
pub struct Proof {
    pub kind: ProofKind,
    /// The chunk's height.
    pub height: Height,
    /// The chunk's shard.
    pub shard: ShardId,
    /// The place of the item among those of its kind, from 0.
    pub place: u64,
    /// How many items of the kind the chunk has.
    pub count: u64,
    /// The bytes of the item.
    pub item: Blob,
    /// The tops beside the way from the item to the root, the lowest first.
    pub path: List<Hash32>,
}
