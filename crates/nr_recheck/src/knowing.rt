//! What is known of numbers and bytes by their types.

ghost use Rattle.std.specs.Prelude.{◌<◌, ◌^◌, ℕ, List as Items};
ghost use Rattle.std.specs.List.{AllByRecursion};
ghost use Rattle.nr_bytes.specs.Numbers.{IsBytes};
ghost use Rattle.nr_columns.specs.Entries.{pairs_of};
ghost use Rattle.nr_fees.specs.Fees.{attached};
ghost use Rattle.nr_receipt.specs.Keeping.{HasSmallCalls};
ghost use Rattle.nr_records.specs.declared.receipt.Receipt.{Receipt as OneReceipt};

use nr_columns::Entry;
use nr_records::{Action, Body, Receipt};

/// A number of the program has 64 bits.
fn know_number(number: u64)
    ensures { number < 2 ^ 64 }
{
    let _ = number;
}

/// The gas attached to an action fits in its number.
fn know_action(action: &Action)
    ensures { attached action.now < 2 ^ 64 }
{
    if let Action::FunctionCall { gas, .. } = action {
        know_number(*gas);
    }
}

/// So does that of each.
fn know_actions(actions: &[Action])
    ensures { AllByRecursion (λ a. attached a < 2 ^ 64) actions.now }
{
    for action in actions {
        know_action(action);
    }
}

fn know_receipt(receipt: &Receipt)
    ensures { HasSmallCalls receipt.now.body }
{
    if let Body::Act(act) = &receipt.body {
        know_actions(act.actions.inner());
    }
}

/// The gas attached to the actions of receipts fits in its numbers. It changes nothing.
pub(crate) fn know_receipts(receipts: &[Receipt])
    ensures { AllByRecursion (λ (r : OneReceipt). HasSmallCalls r.body) receipts.now }
{
    for receipt in receipts {
        know_receipt(receipt);
    }
}

fn know_bytes(bytes: &[u8])
    ensures { IsBytes bytes.now }
{
    let _ = bytes;
}

fn know_key(entry: &Entry)
    ensures { IsBytes entry.now.key }
{
    know_bytes(entry.key.inner());
}

/// The keys of entries are bytes. It changes nothing.
pub(crate) fn know_keys(entries: &[Entry])
    ensures { AllByRecursion (λ (e : Items ℕ × Items ℕ). IsBytes e.0) (pairs_of entries.now) }
{
    for entry in entries {
        know_key(entry);
    }
}
