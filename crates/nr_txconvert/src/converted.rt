//! What a transaction became.

use nr_records::Receipt;

/// What a transaction became.
#[derive(Debug, PartialEq, Eq, Drop)]
pub struct Converted {
    pub receipt: Receipt,
    /// The gas that was burnt for sending it.
    pub gas: u64,
    /// The tokens that were burnt for that gas.
    pub burnt: u128,
}
