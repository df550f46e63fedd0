//! The one place that names the store of a shard's state.

use nr_state::ShardState;
use nr_trieupdate::TrieStore;

/// The store in which each shard's state stands.
pub type ChunkStore = TrieStore;

/// The state of a shard.
pub(crate) type State = ShardState<ChunkStore>;
