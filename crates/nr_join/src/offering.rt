//! What becomes of a receipt that is offered to a state.

ghost use Rattle.std.specs.Prelude.{◌≡◌, true, IfOk, None};
ghost use Rattle.std.specs.FinMap.{get};
ghost use Rattle.nr_join.specs.Offering.{inputs_held, postpone, offer_actions, release, store, offer, Offers};
ghost use Rattle.nr_join.specs.Parts.{is_complete};
ghost use Rattle.nr_state.specs.Changes.{with_received};
ghost use Rattle.nr_state.specs.Queues.{is_act};

use crate::clash::inputs_held;
use crate::offered::{Held, Offered};
use crate::running::{read_data, run, run_complete};
use nr_ids::{AccountId, Hash32};
use nr_records::{Body, DataReceipt, Receipt};
use nr_state::ShardState;
use nr_state::queues::{
    add_postponed, add_received, awaited, inputs, missing, received, take_postponed,
};
use nr_triedef::Store;
use std::alloc::{AllocError, Global};

/// Postpones a receipt that lacks an input, unless a postponed receipt has its receiver and id.
fn postpone<S: Store>(
    alloc: Global,
    state: &mut ShardState<S>,
    receipt: Receipt,
) -> Result<Offered, AllocError>
    requires whole { state.old.whole ≡ true }
    requires action { is_act receipt.body ≡ true }
    requires free { inputs_held state.old.world receipt ≡ None }
    ensures { Offers result state.old state.new (postpone state.old.world receipt) }
{
    let id = receipt.receipt_id;
    if missing(alloc, state, &receipt.receiver, &id)?.is_some() {
        let held = Held::Id(id);
        return Ok(Offered::Clash { receipt, held });
    }
    add_postponed(alloc, state, &receipt)?;
    Ok(Offered::Postponed(id))
}

/// Offers a receipt of actions.
fn offer_actions<S: Store>(
    alloc: Global,
    state: &mut ShardState<S>,
    receipt: Receipt,
) -> Result<Offered, AllocError>
    requires whole { state.old.whole ≡ true }
    requires action { is_act receipt.body ≡ true }
    ensures { Offers result state.old state.new (offer_actions state.old.world receipt) }
{
    if let Some(held) = inputs_held(alloc, state, &receipt)? {
        return Ok(Offered::Clash { receipt, held });
    }
    match read_data(alloc, state, &receipt.receiver, inputs(&receipt))? {
        Some(found) => run(alloc, state, receipt, found),
        None => postpone(alloc, state, receipt),
    }
}

/// Whether a postponed receipt has this id and lacks no input.
fn is_complete<S: Store>(
    alloc: Global,
    state: &ShardState<S>,
    receiver: &AccountId,
    receipt_id: &Hash32,
) -> Result<bool, AllocError>
    requires { state.now.whole ≡ true }
    ensures { IfOk result (λ complete. complete
        ≡ is_complete state.now.world (get state.now.world.postponed (receiver.now, receipt_id.now.0))) }
{
    match missing(alloc, state, receiver, receipt_id)? {
        Some(count) => Ok(count == 0),
        None => Ok(false),
    }
}

/// Takes out the postponed receipt with this id and runs it, if it lacks no input.
fn release<S: Store>(
    alloc: Global,
    state: &mut ShardState<S>,
    receipt: &Receipt,
    waiter: &Hash32,
) -> Result<Offered, AllocError>
    requires whole { state.old.whole ≡ true }
    ensures { Offers result state.old state.new
        (release state.old.world receipt.now waiter.now
        (get state.old.world.postponed (receipt.now.receiver, waiter.now.0))) }
{
    if !is_complete(alloc, state, &receipt.receiver, waiter)? {
        return Ok(Offered::Stored(receipt.receipt_id));
    }
    match take_postponed(alloc, state, &receipt.receiver, waiter)? {
        Some(waiting) => run_complete(alloc, state, waiting),
        None => unreachable!(),
    }
}

/// Stores a datum, and runs the receipt that waits for it, if it lacks nothing more.
fn store<S: Store>(
    alloc: Global,
    state: &mut ShardState<S>,
    receipt: &Receipt,
    datum: &DataReceipt,
) -> Result<Offered, AllocError>
    requires whole { state.old.whole ≡ true }
    requires new { get state.old.world.received (receipt.now.receiver, datum.now.data_id.0) ≡ None }
    ensures { Offers result state.old state.new
        (store (with_received state.old.world receipt.now.receiver datum.now.data_id datum.now.bytes) receipt.now
        datum.now.data_id) }
{
    add_received(
        alloc,
        state,
        &receipt.receiver,
        &datum.data_id,
        &datum.bytes,
    )?;
    let Some(waiter) = awaited(alloc, state, &receipt.receiver, &datum.data_id)? else {
        return Ok(Offered::Stored(receipt.receipt_id));
    };
    release(alloc, state, receipt, &waiter)
}

/// Offers a receipt to the state of its receiver's shard.
///
/// A receipt of actions clashes where two of its inputs have one id, where a postponed receipt at
/// its receiver has one of its inputs, or where it would be postponed and a postponed receipt has
/// its receiver and id. Otherwise it is postponed where it lacks an input, and else it runs with
/// its data, which are removed.
///
/// A datum clashes where its receiver has received one with its id and hasn't used it. Otherwise it
/// is stored; the postponed receipt that lacked nothing else is taken out and runs.
///
/// # Errors
///
/// Where memory runs out. Of the state nothing is said then.
pub fn offer<S: Store>(
    alloc: Global,
    state: &mut ShardState<S>,
    receipt: Receipt,
) -> Result<Offered, AllocError>
    requires whole { state.old.whole ≡ true }
    ensures { Offers result state.old state.new (offer state.old.world receipt) }
{
    let Body::Datum(datum) = &receipt.body else {
        return offer_actions(alloc, state, receipt);
    };
    let id = datum.data_id;
    if received(alloc, state, &receipt.receiver, &id)?.is_some() {
        let held = Held::Arrived(id);
        return Ok(Offered::Clash { receipt, held });
    }
    store(alloc, state, &receipt, datum)
}
