//! Receipts that are made, each under the next id.

ghost use Rattle.std.specs.Prelude.{◌≡◌, OnOk};
ghost use Rattle.nr_actions.specs.Actions.{next_id, with_drawn};

use crate::frame::Frame;
use nr_ids::{Hash32, derive};
use nr_records::Receipt;
use std::alloc::AllocError;

/// The next id that is drawn from the receipt's.
pub fn next_id(frame: &Frame) -> Hash32
    ensures { result ≡ next_id frame.now }
{
    derive(&frame.receipt_id, frame.place.height, frame.next_ordinal)
}

/// Adds a receipt that has the next id.
///
/// # Errors
///
/// Where memory ran out; a number of 2^64 or more for the id behind it counts as that.
pub fn draw(frame: &mut Frame, receipt: Receipt) -> Result<(), AllocError>
    ensures { OnOk result (frame.new ≡ with_drawn frame.old receipt) }
{
    frame.next_ordinal = frame.next_ordinal.checked_add(1).ok_or(AllocError)?;
    frame.made.vec_mut().push(receipt)?;
    Ok(())
}
