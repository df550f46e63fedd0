//! The lines of receipts that a call made. These calls add to a text, and want of memory leaves a part.

ghost use Rattle.std.specs.Prelude.{◌≡◌, ◌++◌, OnOk, string_bytes};
ghost use Rattle.std.specs.List.{flat_map};
ghost use Rattle.nr_onecall.specs.Texts.{act_text, action_line, body_text, give_line, receipt_text, wait_line};

use crate::words::{action_word, id_word};
use nr_ids::Hash32;
use nr_records::{Action, ActionReceipt, Body, DataReceiver, Receipt};
use nr_report::hash_digits;
use std::alloc::{AllocError, Global};
use std::fmt::Write;

/// A line for each datum that a receipt waits for.
fn print_inputs(alloc: Global, inputs: &[Hash32], text: &mut String) -> Result<(), AllocError>
    ensures { OnOk result (string_bytes text.new ≡ string_bytes text.old ++ flat_map wait_line inputs.now) }
{
    for input in inputs {
        let id = hash_digits(alloc, input)?;
        writeln!(text, "wait {id}")?;
    }
    Ok(())
}

/// A line for each that gets its result.
fn print_outputs(
    alloc: Global,
    outputs: &[DataReceiver],
    text: &mut String,
) -> Result<(), AllocError>
    ensures { OnOk result (string_bytes text.new ≡ string_bytes text.old ++ flat_map give_line outputs.now) }
{
    for output in outputs {
        let id = hash_digits(alloc, &output.data_id)?;
        let receiver = id_word(&output.receiver);
        writeln!(text, "give {id} {receiver}")?;
    }
    Ok(())
}

fn print_actions(alloc: Global, actions: &[Action], text: &mut String) -> Result<(), AllocError>
    ensures { OnOk result (string_bytes text.new ≡ string_bytes text.old ++ flat_map action_line actions.now) }
{
    for action in actions {
        let word = action_word(alloc, action)?;
        writeln!(text, "action {word}")?;
    }
    Ok(())
}

#[tactic(auto, unfolding(crate::specs::Texts::act_text))]
fn print_act(alloc: Global, act: &ActionReceipt, text: &mut String) -> Result<(), AllocError>
    ensures { OnOk result (string_bytes text.new ≡ string_bytes text.old ++ act_text act.now) }
{
    print_inputs(alloc, act.inputs.inner(), text)?;
    print_outputs(alloc, act.outputs.inner(), text)?;
    print_actions(alloc, act.actions.inner(), text)
}

fn print_body(alloc: Global, body: &Body, text: &mut String) -> Result<(), AllocError>
    ensures { OnOk result (string_bytes text.new ≡ string_bytes text.old ++ body_text body.now) }
{
    match body {
        Body::Act(act) => print_act(alloc, act, text),
        Body::Datum(_) => Ok(()),
    }
}

#[tactic(auto, unfolding(crate::specs::Texts::receipt_text))]
fn print_receipt(alloc: Global, receipt: &Receipt, text: &mut String) -> Result<(), AllocError>
    ensures { OnOk result (string_bytes text.new ≡ string_bytes text.old ++ receipt_text receipt.now) }
{
    let id = hash_digits(alloc, &receipt.receipt_id)?;
    let receiver = id_word(&receipt.receiver);
    writeln!(text, "receipt {id} {receiver}")?;
    print_body(alloc, &receipt.body, text)
}

/// The lines of each receipt.
///
/// # Errors
///
/// Where memory runs out.
pub(crate) fn print_receipts(
    alloc: Global,
    receipts: &[Receipt],
    text: &mut String,
) -> Result<(), AllocError>
    ensures { OnOk result (string_bytes text.new ≡ string_bytes text.old ++ flat_map receipt_text receipts.now) }
{
    for receipt in receipts {
        print_receipt(alloc, receipt, text)?;
    }
    Ok(())
}
