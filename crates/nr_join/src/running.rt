//! A receipt runs with its data, which are used up.

ghost use Rattle.std.specs.Prelude.{◌≡◌, true, false, IfOk, OnOk};
ghost use Rattle.nr_join.specs.Offering.{data_for, without_data, run, lacks_input, Offers};
ghost use Rattle.nr_join.specs.Parts.{HasData};
ghost use Rattle.nr_state.specs.Flat.{inputs_of};
ghost use Rattle.nr_state.specs.View.{with_world};

use crate::offered::Offered;
use nr_bytes::{Blob, List};
use nr_ids::{AccountId, Hash32};
use nr_records::Receipt;
use nr_state::ShardState;
use nr_state::queues::{inputs, received, remove_received};
use nr_triedef::Store;
use std::alloc::{AllocError, Global};

/// The data that were received under these ids, in their order; `None` where one wasn't.
pub(crate) fn read_data<S: Store>(
    alloc: Global,
    state: &ShardState<S>,
    receiver: &AccountId,
    ids: &[Hash32],
) -> Result<Option<List<Option<Blob>>>, AllocError>
    ensures { IfOk result (λ found. HasData found state.now.world receiver.now ids.now) }
{
    let mut found = Vec::new(alloc);
    let mut rest = ids;
    while let [id, after @ ..] = rest {
        let Some(bytes) = received(alloc, state, receiver, id)? else {
            return Ok(None);
        };
        found.push(bytes)?;
        rest = after;
    }
    Ok(Some(List::of(found)))
}

/// Removes the data that were received under these ids.
fn remove_data<S: Store>(
    alloc: Global,
    state: &mut ShardState<S>,
    receiver: &AccountId,
    ids: &[Hash32],
) -> Result<(), AllocError>
    requires { state.old.whole ≡ true }
    ensures { OnOk result (state.new ≡ with_world state.old (without_data state.old.world receiver.now ids.now)) }
{
    for id in ids {
        remove_received(alloc, state, receiver, id)?;
    }
    Ok(())
}

/// Runs a receipt with its data, which are removed.
pub(crate) fn run<S: Store>(
    alloc: Global,
    state: &mut ShardState<S>,
    receipt: Receipt,
    found: List<Option<Blob>>,
) -> Result<Offered, AllocError>
    requires whole { state.old.whole ≡ true }
    requires found { found ≡ data_for state.old.world receipt.receiver (inputs_of receipt.body) }
    ensures { Offers result state.old state.new (run state.old.world receipt) }
{
    remove_data(alloc, state, &receipt.receiver, inputs(&receipt))?;
    Ok(Offered::Run {
        receipt,
        inputs: found,
    })
}

/// Runs a receipt that lacks no input.
pub(crate) fn run_complete<S: Store>(
    alloc: Global,
    state: &mut ShardState<S>,
    receipt: Receipt,
) -> Result<Offered, AllocError>
    requires whole { state.old.whole ≡ true }
    requires complete { lacks_input state.old.world receipt ≡ false }
    ensures { Offers result state.old state.new (run state.old.world receipt) }
{
    match read_data(alloc, state, &receipt.receiver, inputs(&receipt))? {
        Some(found) => run(alloc, state, receipt, found),
        None => unreachable!(),
    }
}
