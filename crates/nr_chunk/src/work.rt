//! A chunk at work: its parts.

use crate::state::State;
use nr_ids::ShardId;
use nr_records::{ChunkLine, Receipt};
use nr_state::Place;

/// A chunk at work: the state of its shard, and what it made so far.
#[derive(Drop)]
pub(crate) struct Work {
    pub(crate) state: State,
    pub(crate) shard: ShardId,
    pub(crate) place: Place,
    /// The gas that it burnt so far, and the tokens.
    pub(crate) gas: u64,
    pub(crate) burnt: u128,
    /// How many receipts it converted for their own signer.
    pub(crate) local: u64,
    /// The receipts that it makes, in order, which go out when it is sealed.
    pub(crate) outgoing: Vec<Receipt>,
    pub(crate) lines: Vec<ChunkLine>,
}
