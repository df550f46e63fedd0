//! Postponed receipts that wait for inputs of their own.

ghost use Rattle.std.specs.Prelude.{◌≡◌, ◌<◌, ◌==◌, ◌||◌, ℕ, List, get_or, length, not, map as each, count_by, IfOk};
ghost use Rattle.std.specs.Prelude.{OnOk};
ghost use Rattle.std.specs.FinMap as map;
ghost use Rattle.std.specs.BTreeSet.{contains};
ghost use Rattle.std.specs.List.{list_all};
ghost use Rattle.std.specs.Str.{bytes_eq};
ghost use Rattle.nr_columns.specs.Orders.{bytes_cmp};
ghost use Rattle.nr_state.specs.Flat.{inputs_of, is_missing};
ghost use Rattle.nr_state.specs.Repeats.{has_repeat};
ghost use Rattle.nr_state.specs.View.{world_in};
ghost use Rattle.nr_worlds.specs.Tests.{are_all, are_awaited, inputs_count, is_lacking, is_waiting, waiting_told};

use nr_columns::{Columns, Entry};
use nr_entries::count_in;
use nr_ids::{AccountId, Hash32};
use nr_records::{Body, Receipt};
use nr_triedef::Store;
use std::alloc::{AllocError, Global};
use std::collections::BTreeSet;

/// The byte that the keys of awaited data begin with.
const AWAITED: u8 = 4;

/// The byte that the keys of counts of missing inputs begin with.
const MISSING: u8 = 5;

/// Adds an id; `false` where it was there.
#[tactic(auto, using(crate::proofs::Repeated::seen_more))]
fn add(seen: &mut BTreeSet<[u8; 32]>, id: &Hash32) -> Result<bool, AllocError>
    ensures fresh { IfOk result (λ fresh. fresh ≡ not (contains bytes_cmp seen.old id.now.0)) }
    ensures more { OnOk result ((q : List ℕ) → contains bytes_cmp seen.new q
        ≡ (bytes_eq q id.now.0 || contains bytes_cmp seen.old q)) }
{
    Ok(seen.insert(id.0)?)
}

/// The id at a place.
fn id_at(ids: &[Hash32], place: usize) -> &Hash32
    requires { place < length ids.now }
    ensures { result.now ≡ get_or ids.now place result.now }
{
    &ids[place]
}

/// Whether an id stands twice.
fn has_repeat(alloc: Global, ids: &[Hash32]) -> Result<bool, AllocError>
    ensures { IfOk result (λ has. has ≡ has_repeat (each (λ id. id.0) ids.now)) }
{
    let mut seen = BTreeSet::new(alloc);
    let mut left = ids.len();
    while left > 0 {
        left -= 1;
        let id = id_at(ids, left);
        let fresh = add(&mut seen, id)?;
        if !fresh {
            return Ok(true);
        }
    }
    Ok(false)
}

/// How many of the inputs didn't come.
fn count_missing<S: Store>(
    columns: &Columns<S>,
    receiver: &AccountId,
    inputs: &[Hash32],
) -> Result<u64, AllocError>
    ensures { IfOk result (λ count. count ≡ count_by (is_missing (world_in columns.now.columns) receiver.now)
        inputs.now) }
{
    let mut count: u64 = 0;
    for input in inputs {
        if columns.received(receiver, input)?.is_none() {
            count = count.checked_add(1).ok_or(AllocError)?;
        }
    }
    Ok(count)
}

/// Whether each input is awaited by the receipt.
fn are_awaited<S: Store>(
    columns: &Columns<S>,
    receipt: &Receipt,
    inputs: &[Hash32],
) -> Result<bool, AllocError>
    ensures { IfOk result (λ are. are ≡ are_awaited columns.now.columns receipt.now inputs.now) }
{
    let mut rest = inputs;
    while let [input, after @ ..] = rest {
        match columns.awaited(&receipt.receiver, input)? {
            Some(by) if by == receipt.receipt_id => rest = after,
            _ => return Ok(false),
        }
    }
    Ok(true)
}

/// Whether a receipt lacks inputs, as many as the count says.
fn is_lacking<S: Store>(
    columns: &Columns<S>,
    receipt: &Receipt,
    lacking: u64,
) -> Result<bool, AllocError>
    ensures { IfOk result (λ is. is ≡ is_lacking columns.now.columns receipt.now lacking) }
{
    match columns.missing(&receipt.receiver, &receipt.receipt_id)? {
        Some(count) => Ok(lacking > 0 && u64::from(count) == lacking),
        None => Ok(false),
    }
}

/// Whether a receipt is one of actions that waits for distinct inputs, as its columns say.
#[tactic(auto, unfolding(crate::specs::Tests::is_waiting))]
fn is_waiting<S: Store>(
    alloc: Global,
    columns: &Columns<S>,
    receipt: &Receipt,
) -> Result<bool, AllocError>
    ensures { IfOk result (λ is. is ≡ is_waiting columns.now.columns receipt.now) }
{
    let Body::Act(act) = &receipt.body else {
        return Ok(false);
    };
    let inputs = act.inputs.inner();
    if has_repeat(alloc, inputs)? {
        return Ok(false);
    }
    let count = count_missing(columns, &receipt.receiver, inputs)?;
    let lacking = is_lacking(columns, receipt, count)?;
    let awaited = are_awaited(columns, receipt, inputs)?;
    Ok(lacking && awaited)
}

/// Whether each receipt waits so.
fn each_waits<S: Store>(
    alloc: Global,
    columns: &Columns<S>,
    receipts: &[Receipt],
) -> Result<bool, AllocError>
    ensures { IfOk result (λ are. are ≡ list_all (is_waiting columns.now.columns) receipts.now) }
{
    let mut rest = receipts;
    while let [receipt, after @ ..] = rest {
        if !is_waiting(alloc, columns, receipt)? {
            return Ok(false);
        }
        rest = after;
    }
    Ok(true)
}

/// How many inputs a receipt has.
fn inputs_len(receipt: &Receipt) -> u64
    ensures { result ≡ length (inputs_of receipt.now.body) }
{
    match &receipt.body {
        Body::Act(act) => act.inputs.inner().len() as u64,
        Body::Datum(_) => 0,
    }
}

/// Whether receipts have so many inputs in all.
#[tactic(auto, using(crate::proofs::Fewer::fewer_left, crate::proofs::Fewer::too_few, crate::proofs::Fewer::one_more_count))]
fn has_inputs(receipts: &[Receipt], count: u64) -> bool
    ensures { result ≡ (count == inputs_count receipts.now) }
{
    let mut left = count;
    let mut rest = receipts;
    while let [receipt, after @ ..] = rest {
        match left.checked_sub(inputs_len(receipt)) {
            Some(fewer) => left = fewer,
            None => return false,
        }
        rest = after;
    }
    left == 0
}

/// Whether nothing is awaited or counted but for these receipts.
fn are_all(entries: &[Entry], receipts: &[Receipt]) -> bool
    ensures { result ≡ are_all entries.now receipts.now }
{
    count_in(MISSING, entries) == receipts.len()
        && has_inputs(receipts, count_in(AWAITED, entries) as u64)
}

/// Whether the postponed receipts wait so, and nothing is awaited or counted but for them.
pub(crate) fn waiting_fit<S: Store>(
    alloc: Global,
    columns: &Columns<S>,
    entries: &[Entry],
    receipts: &[Receipt],
) -> Result<bool, AllocError>
    requires { receipts.now ≡ map.values columns.now.columns.postponed }
    ensures { IfOk result (λ fit. fit ≡ waiting_told columns.now.columns entries.now) }
{
    Ok(are_all(entries, receipts) && each_waits(alloc, columns, receipts)?)
}
