//! What becomes of a receipt that is offered.

use nr_bytes::{Blob, List};
use nr_ids::Hash32;
use nr_records::Receipt;

/// What became of a receipt that was offered to a state.
#[derive(Debug, PartialEq, Eq, Drop)]
pub enum Offered {
    /// A receipt of actions runs now: the one that was offered, or one that waited for the datum.
    Run {
        receipt: Receipt,
        /// The data that it waited for, in the order of its inputs; `None` for one of a receipt that
        /// failed.
        inputs: List<Option<Blob>>,
    },
    /// It waits in the state for its data. The id is its own.
    Postponed(Hash32),
    /// Its datum waits in the state for a receipt. The id is the receipt's own.
    Stored(Hash32),
    /// It clashes with something; the state is as it was.
    Clash {
        receipt: Receipt,
        held: Held,
    },
}

/// What a receipt clashes with.
#[derive(Clone, Copy, Debug, PartialEq, Eq)]
pub enum Held {
    /// Two of its inputs have this id.
    SameInput(Hash32),
    /// A postponed receipt at its receiver waits for this input of it.
    Awaited(Hash32),
    /// A postponed receipt at its receiver has its id, which is this one.
    Id(Hash32),
    /// Its receiver has received a datum with this id, and hasn't used it.
    Arrived(Hash32),
}
