//! What those get who wait for a receipt's result.

ghost use Rattle.std.specs.Prelude.{◌≡◌, ◌^◌, ◌<◌, None, IfOk, IfSome, OnOk, length, slice_get};
ghost use Rattle.nr_fees.specs.Fees.{deposits};
ghost use Rattle.nr_receipt.specs.Drawing.{datum_for, with_datum, with_data, with_outputs, handed_on, with_result};
ghost use Rattle.nr_receipt.specs.Drawing.{given_up};

use crate::drawing::give_deposits_back;
use nr_actions::{Frame, draw, next_id};
use nr_bytes::{Blob, List};
use nr_ids::Hash32;
use nr_records::{Body, DataReceipt, DataReceiver, Receipt, Spelled};
use nr_state::Returned;
use std::alloc::{AllocError, Global};

/// The datum for an output.
fn datum_for(
    alloc: Global,
    frame: &Frame,
    bytes: &Option<Blob>,
    to: &DataReceiver,
) -> Result<Receipt, AllocError>
    ensures { IfOk result (λ receipt. receipt ≡ datum_for frame.now bytes.now to.now) }
{
    Ok(Receipt {
        predecessor: frame.receiver.duplicate(alloc)?,
        receiver: to.receiver.duplicate(alloc)?,
        receipt_id: next_id(frame),
        body: Body::Datum(DataReceipt {
            data_id: to.data_id,
            bytes: bytes.duplicate(alloc)?,
        }),
    })
}

/// Gives the output with this index its datum.
fn give_datum(
    alloc: Global,
    frame: &mut Frame,
    index: usize,
    bytes: &Option<Blob>,
) -> Result<(), AllocError>
    requires { index < length frame.old.act.outputs }
    ensures { IfSome (slice_get frame.old.act.outputs index)
        (λ to. OnOk result (frame.new ≡ with_datum bytes.now frame.old to)) }
{
    let receipt = datum_for(alloc, frame, bytes, &frame.act.outputs.inner()[index])?;
    draw(frame, receipt)?;
    Ok(())
}

/// Gives each output a datum.
fn give_data(alloc: Global, frame: &mut Frame, bytes: &Option<Blob>) -> Result<(), AllocError>
    ensures { OnOk result (frame.new ≡ with_data bytes.now frame.old) }
{
    let count = frame.act.outputs.inner().len();
    for index in 0..count {
        give_datum(alloc, frame, index, bytes)?;
    }
    Ok(())
}

/// Adds outputs behind those of a receipt of actions.
fn add_outputs(
    alloc: Global,
    body: &mut Body,
    outputs: &List<DataReceiver>,
) -> Result<(), AllocError>
    ensures { OnOk result (body.new ≡ with_outputs outputs.now body.old) }
{
    match body {
        Body::Act(act) => {
            let mut more = outputs.duplicate(alloc)?.into_inner();
            act.outputs.vec_mut().append(&mut more)?;
            Ok(())
        }
        Body::Datum(_) => Ok(()),
    }
}

/// Hands the outputs on to the first receipt that has this id.
fn hand_on(
    alloc: Global,
    made: &mut [Receipt],
    id: Hash32,
    outputs: &List<DataReceiver>,
) -> Result<(), AllocError>
    ensures { OnOk result (made.new ≡ handed_on outputs.now id made.old) }
{
    for index in 0..made.len() {
        if made[index].receipt_id == id {
            add_outputs(alloc, &mut made[index].body, outputs)?;
            return Ok(());
        }
    }
    Ok(())
}

/// Gives the outputs what the last action returned: each the value, or all to the receipt that was
/// promised.
pub(crate) fn give_result(alloc: Global, frame: &mut Frame) -> Result<(), AllocError>
    ensures { OnOk result (frame.new ≡ with_result frame.old.returned frame.old) }
{
    match &frame.returned {
        Returned::Value(bytes) => {
            let bytes = Some(bytes.duplicate(alloc)?);
            give_data(alloc, frame, &bytes)?;
        }
        Returned::Promise(id) => {
            hand_on(alloc, frame.made.vec_mut(), *id, &frame.act.outputs)?;
        }
    }
    Ok(())
}

/// Gives each output none, and the deposits back.
pub(crate) fn give_up(alloc: Global, frame: &mut Frame) -> Result<(), AllocError>
    requires { deposits frame.old.act.actions < 2 ^ 128 }
    ensures { OnOk result (frame.new ≡ given_up frame.old) }
{
    give_data(alloc, frame, &None)?;
    give_deposits_back(alloc, frame)?;
    Ok(())
}
