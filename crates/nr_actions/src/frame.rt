//! What the actions of one receipt share.

use nr_bytes::{Blob, List};
use nr_ids::{AccountId, Hash32};
use nr_records::{ActionReceipt, Receipt};
use nr_state::{Place, Returned};

/// A receipt of actions that is being executed.
#[derive(Debug, PartialEq, Eq, Drop)]
pub struct Frame {
    /// The account that made the receipt.
    pub predecessor: AccountId,
    pub receiver: AccountId,
    /// The account that acts: the predecessor first; the receiver, once it was made here; the predecessor
    /// again, once the receiver was deleted.
    pub actor: AccountId,
    pub act: ActionReceipt,
    pub receipt_id: Hash32,
    /// The data that the receipt waited for, in order; `None` for a receipt that failed.
    pub inputs: List<Option<Blob>>,
    pub place: Place,
    /// The number of the next id that is drawn from `receipt_id`.
    pub next_ordinal: u64,
    /// The receipts made so far, in order.
    pub made: List<Receipt>,
    /// What the last action returned: empty bytes until it was done, or where it returns nothing.
    pub returned: Returned,
    /// The texts logged so far, in order.
    pub logs: List<Blob>,
    /// The gas that calls burnt, those that failed included.
    pub call_burnt: u128,
    /// The prepaid gas of the receipts that calls made.
    pub promised: u128,
}
