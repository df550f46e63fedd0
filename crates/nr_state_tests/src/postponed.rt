//! Receipts that wait for data, added where they may be.

ghost use Rattle.std.specs.Prelude.{◌≡◌, ◌∷◌, [], true, not, is_some, IfOk, OnOk};
ghost use Rattle.std.specs.FinMap as map;
ghost use Rattle.nr_state.specs.Flat.{inputs_of};
ghost use Rattle.nr_state.specs.Queues.{is_act, awaited_by};

use crate::queue_setting::ab;
use crate::setting::State;
use nr_bytes::List;
use nr_ids::{AccountId, Hash32, PublicKey};
use nr_records::{ActionReceipt, Body, Receipt};
use nr_state::queues;
use std::alloc::{AllocError, Global};

fn two(alloc: Global, first: &Hash32, second: &Hash32) -> Result<List<Hash32>, AllocError>
    ensures { IfOk result (λ inputs. inputs ≡ first.now ∷ second.now ∷ []) }
{
    let mut inputs = Vec::new(alloc);
    inputs.push(*first)?;
    inputs.push(*second)?;
    Ok(List::of(inputs))
}

/// No actions, which wait for data.
fn body_of(alloc: Global, signer: AccountId, inputs: List<Hash32>) -> Body
    ensures act { is_act result ≡ true }
    ensures inputs { inputs_of result ≡ inputs }
{
    Body::Act(ActionReceipt {
        signer,
        signer_key: PublicKey::Ed25519(*b"kkkkkkkkkkkkkkkkkkkkkkkkkkkkkkkk"),
        gas_price: 5,
        outputs: List::of(Vec::new(alloc)),
        inputs,
        actions: List::of(Vec::new(alloc)),
    })
}

/// Whether no postponed receipt at a receiver has this id.
fn is_new(
    alloc: Global,
    state: &State,
    receiver: &AccountId,
    id: &Hash32,
) -> Result<bool, AllocError>
    requires { state.now.whole ≡ true }
    ensures { IfOk result (λ new. is_some (map.get state.now.world.postponed (receiver.now, id.now.0)) ≡ not new) }
{
    let found = queues::missing(alloc, state, receiver, id)?;
    Ok(found.is_none())
}

/// Whether no postponed receipt at a receiver has this input.
fn is_free(
    alloc: Global,
    state: &State,
    receiver: &AccountId,
    input: &Hash32,
) -> Result<bool, AllocError>
    requires { state.now.whole ≡ true }
    ensures { IfOk result (λ free. is_some (awaited_by state.now.world receiver.now input.now) ≡ not free) }
{
    let found = queues::awaited(alloc, state, receiver, input)?;
    Ok(found.is_none())
}

/// Adds a receipt with these two inputs, where it may be.
fn postpone(
    alloc: Global,
    state: &mut State,
    receipt: &Receipt,
    first: &Hash32,
    second: &Hash32,
) -> Result<(), AllocError>
    requires whole { state.old.whole ≡ true }
    requires act { is_act receipt.now.body ≡ true }
    requires inputs { inputs_of receipt.now.body ≡ first.now ∷ second.now ∷ [] }
    ensures { OnOk result (state.new.whole ≡ true) }
{
    let receiver = &receipt.receiver;
    let is_new = is_new(alloc, state, receiver, &receipt.receipt_id)?;
    let are_free = is_free(alloc, state, receiver, first)?
        && is_free(alloc, state, receiver, second)?;
    if first == second || !is_new || !are_free {
        return Err(AllocError);
    }
    queues::add_postponed(alloc, state, receipt)?;
    Ok(())
}

/// Makes an account a receipt to itself that waits for two data.
pub(crate) fn receipt_of(
    alloc: Global,
    id: &Hash32,
    first: &Hash32,
    second: &Hash32,
) -> Result<Receipt, AllocError>
    ensures act { IfOk result (λ receipt. is_act receipt.body ≡ true) }
    ensures inputs { IfOk result (λ receipt. inputs_of receipt.body ≡ first.now ∷ second.now ∷ []) }
{
    let inputs = two(alloc, first, second)?;
    Ok(Receipt {
        predecessor: ab(alloc)?,
        receiver: ab(alloc)?,
        receipt_id: *id,
        body: body_of(alloc, ab(alloc)?, inputs),
    })
}

/// Adds such a receipt.
pub(crate) fn put(
    alloc: Global,
    state: &mut State,
    id: &Hash32,
    first: &Hash32,
    second: &Hash32,
) -> Result<(), AllocError>
    requires { state.old.whole ≡ true }
    ensures { OnOk result (state.new.whole ≡ true) }
{
    let receipt = receipt_of(alloc, id, first, second)?;
    postpone(alloc, state, &receipt, first, second)?;
    Ok(())
}
