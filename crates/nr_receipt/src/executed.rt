//! What a receipt of actions did.

use nr_bytes::List;
use nr_records::{Outcome, Receipt};

/// What a receipt of actions did.
#[derive(Debug, PartialEq, Eq, Drop)]
pub struct Executed {
    pub outcome: Outcome,
    /// The receipts that it made, in order.
    pub made: List<Receipt>,
}
