//! Receipts that are made behind the actions, each under the next id.

ghost use Rattle.std.specs.Prelude.{◌≡◌, ◌^◌, ◌<◌, IfOk, OnOk};
ghost use Rattle.nr_actions.specs.Refunds.{refund};
ghost use Rattle.nr_fees.specs.Fees.{deposits};
ghost use Rattle.nr_receipt.specs.Drawing.{next_id, deposits_lost, with_deposits_back, with_gas_back};

use nr_actions::{Frame, deposit_refund, draw, next_id, refund};
use nr_fees::deposits;
use nr_records::Receipt;
use std::alloc::{AllocError, Global};

/// What came with the actions, in all.
fn deposits_of(frame: &Frame) -> u128
    requires { deposits frame.now.act.actions < 2 ^ 128 }
    ensures { result ≡ deposits frame.now.act.actions }
{
    match deposits(&frame.act.actions) {
        Some(sum) => sum,
        None => unreachable!(),
    }
}

/// What is lost of it where the receipt fails: all, where it came from the system.
pub(crate) fn deposits_lost(frame: &Frame) -> u128
    requires { deposits frame.now.act.actions < 2 ^ 128 }
    ensures { result ≡ deposits_lost frame.now }
{
    if frame.predecessor.is_system() {
        deposits_of(frame)
    } else {
        0
    }
}

/// Gives the predecessor the deposits back, unless it is the system.
pub(crate) fn give_deposits_back(alloc: Global, frame: &mut Frame) -> Result<(), AllocError>
    requires { deposits frame.old.act.actions < 2 ^ 128 }
    ensures { OnOk result (frame.new ≡ with_deposits_back frame.old) }
{
    if frame.predecessor.is_system() {
        return Ok(());
    }
    let amount = deposits_of(frame);
    if amount == 0 {
        return Ok(());
    }
    let receiver = frame.predecessor.duplicate(alloc)?;
    let refund = deposit_refund(alloc, receiver, next_id(frame), amount)?;
    draw(frame, refund)?;
    Ok(())
}

/// The refund of gas to the signer.
fn gas_refund(alloc: Global, frame: &Frame, amount: u128) -> Result<Receipt, AllocError>
    ensures { IfOk result (λ receipt. receipt
        ≡ refund frame.now.act.signer (next_id frame.now) frame.now.act.signer frame.now.act.signer_key amount) }
{
    let receiver = frame.act.signer.duplicate(alloc)?;
    let signer = frame.act.signer.duplicate(alloc)?;
    refund(
        alloc,
        receiver,
        next_id(frame),
        signer,
        frame.act.signer_key,
        amount,
    )
}

/// Gives the signer so much back for its gas.
pub(crate) fn give_gas_back(
    alloc: Global,
    frame: &mut Frame,
    amount: u128,
) -> Result<(), AllocError>
    ensures { OnOk result (frame.new ≡ with_gas_back frame.old amount) }
{
    if amount > 0 {
        let receipt = gas_refund(alloc, frame, amount)?;
        draw(frame, receipt)?;
    }
    Ok(())
}
