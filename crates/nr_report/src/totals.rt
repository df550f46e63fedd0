//! The totals of a run.

/// The sums over a run: tokens in the ledger's smallest unit, and how many receipts stand where.
#[derive(Clone, Copy, Debug, PartialEq, Eq)]
pub struct Totals {
    /// The tokens of the genesis.
    pub supply: u128,
    /// What the accounts have.
    pub accounts: u128,
    /// What receipts hold that aren't executed.
    pub receipts: u128,
    /// What was burnt.
    pub burnt: u128,
    /// The receipts that were routed, executed, postponed, delayed, and are in flight.
    pub places: [u64; 5],
}
