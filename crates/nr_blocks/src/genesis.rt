//! The first state of a chain.

use crate::genesis_entry::GenesisEntry;
use nr_bytes::List;
use nr_layout::Layout;

/// The first state of a chain, by shards.
#[derive(Debug, PartialEq, Eq, Drop)]
pub struct Genesis {
    /// The boundaries between the shards.
    pub layout: Layout,
    /// The accounts with their code, keys and data, in the order of the file.
    pub entries: List<GenesisEntry>,
    /// The tokens of all accounts, amounts and locked amounts together: at most 2^127.
    pub supply: u128,
}
