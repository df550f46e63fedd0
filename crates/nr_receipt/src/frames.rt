//! The frame that a receipt begins with, and the one that a failure leaves.

ghost use Rattle.std.specs.Prelude.{◌≡◌, true, IfOk};
ghost use Rattle.nr_receipt.specs.Execution.{OfActions, dropped};
ghost use Rattle.nr_receipt.specs.Frames.{first_frame};
ghost use Rattle.nr_state.specs.Queues.{is_act};

use nr_actions::Frame;
use nr_bytes::{Blob, List};
use nr_records::{Body, Receipt};
use nr_state::{Place, Returned};
use std::alloc::{AllocError, Global};

/// The frame of a receipt of actions, before any of them.
pub(crate) fn first_frame(
    alloc: Global,
    receipt: Receipt,
    inputs: List<Option<Blob>>,
    place: &Place,
) -> Result<Frame, AllocError>
    requires { is_act receipt.body ≡ true }
    ensures { IfOk result (λ frame. OfActions receipt.body (λ act. frame ≡ first_frame receipt act inputs place.now)) }
{
    let Receipt {
        predecessor,
        receiver,
        receipt_id,
        body,
    } = receipt;
    let actor = predecessor.duplicate(alloc)?;
    match body {
        Body::Act(act) => Ok(Frame {
            predecessor,
            receiver,
            actor,
            act,
            receipt_id,
            inputs,
            place: *place,
            next_ordinal: 0,
            made: List::of(Vec::new(alloc)),
            returned: Returned::Value(Blob::of(Vec::new(alloc))),
            logs: List::of(Vec::new(alloc)),
            call_burnt: 0,
            promised: 0,
        }),
        Body::Datum(_datum) => unreachable!(),
    }
}

/// Drops what the actions made, logged and promised; ids are drawn from the first one again.
pub(crate) fn drop_made(alloc: Global, frame: &mut Frame)
    ensures { frame.new ≡ dropped frame.old }
{
    frame.next_ordinal = 0;
    frame.made = List::of(Vec::new(alloc));
    frame.logs = List::of(Vec::new(alloc));
    frame.promised = 0;
}
