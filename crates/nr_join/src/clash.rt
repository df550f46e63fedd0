//! With what the inputs of a receipt clash.

ghost use Rattle.std.specs.Prelude.{◌≡◌, true, IfOk};
ghost use Rattle.std.specs.List.{list_any};
ghost use Rattle.std.specs.Str.{bytes_eq};
ghost use Rattle.nr_join.specs.Offering.{first_repeated, first_awaited, inputs_held};

use crate::offered::Held;
use nr_ids::{AccountId, Hash32};
use nr_records::Receipt;
use nr_state::ShardState;
use nr_state::queues::{awaited, inputs};
use nr_triedef::Store;
use std::alloc::{AllocError, Global};

/// Whether an id is among others.
fn is_among(id: &Hash32, others: &[Hash32]) -> bool
    ensures { result ≡ list_any (λ other. bytes_eq id.now.0 other.0) others.now }
{
    others.iter().any(|other| id == other)
}

/// The first id that stands once more behind it.
fn first_repeated(ids: &[Hash32]) -> Option<Hash32>
    ensures { result ≡ first_repeated ids.now }
{
    let mut rest = ids;
    while let [id, after @ ..] = rest {
        if is_among(id, after) {
            return Some(*id);
        }
        rest = after;
    }
    None
}

/// The first id that a postponed receipt at the receiver has as an input.
fn first_awaited<S: Store>(
    alloc: Global,
    state: &ShardState<S>,
    receiver: &AccountId,
    ids: &[Hash32],
) -> Result<Option<Hash32>, AllocError>
    requires { state.now.whole ≡ true }
    ensures { IfOk result (λ found. found ≡ first_awaited state.now.world receiver.now ids.now) }
{
    let mut rest = ids;
    while let [id, after @ ..] = rest {
        if awaited(alloc, state, receiver, id)?.is_some() {
            return Ok(Some(*id));
        }
        rest = after;
    }
    Ok(None)
}

/// With what the inputs of a receipt clash: with one another, or with those of a receipt that waits
/// already.
pub(crate) fn inputs_held<S: Store>(
    alloc: Global,
    state: &ShardState<S>,
    receipt: &Receipt,
) -> Result<Option<Held>, AllocError>
    requires { state.now.whole ≡ true }
    ensures { IfOk result (λ held. held ≡ inputs_held state.now.world receipt.now) }
{
    let ids = inputs(receipt);
    if let Some(id) = first_repeated(ids) {
        return Ok(Some(Held::SameInput(id)));
    }
    let found = first_awaited(alloc, state, &receipt.receiver, ids)?;
    Ok(found.map(Held::Awaited))
}
