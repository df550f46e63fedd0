//! The delayed queue: receipts for which a chunk had no gas left.

ghost use Rattle.std.specs.Prelude.{◌≡◌, ◌+◌, ◌^◌, ◌<◌, true, IfOk, OnOk, length, slice_get};
ghost use Rattle.nr_state.specs.Changes.{with_delayed, served_front};
ghost use Rattle.nr_state.specs.View.{with_world};

use nr_records::Receipt;
use nr_state::ShardState;
use nr_state::queues::{add_delayed, take_delayed};
use nr_triedef::Store;
use std::alloc::{AllocError, Global};

/// Puts a receipt at the end of the delayed queue.
///
/// # Errors
///
/// Where memory runs out, or where more than 2^63 receipts would have been delayed since the genesis
/// or the last change of boundaries. Of the state nothing is said then.
pub fn delay<S: Store>(
    alloc: Global,
    state: &mut ShardState<S>,
    receipt: Receipt,
) -> Result<(), AllocError>
    requires whole { state.old.whole ≡ true }
    ensures ok { OnOk result (state.new ≡ with_world state.old (with_delayed state.old.world receipt)) }
    ensures room { OnOk result (state.old.world.served + length state.old.world.delayed < 2 ^ 63) }
{
    add_delayed(alloc, state, &receipt)
}

/// Takes the oldest receipt out of the delayed queue; `None` where the queue is empty.
///
/// # Errors
///
/// Where memory runs out. Of the state nothing is said then.
pub fn next_delayed<S: Store>(
    alloc: Global,
    state: &mut ShardState<S>,
) -> Result<Option<Receipt>, AllocError>
    requires whole { state.old.whole ≡ true }
    ensures found { IfOk result (λ found. found ≡ slice_get state.old.world.delayed 0) }
    ensures ok { OnOk result (state.new ≡ with_world state.old (served_front state.old.world state.old.world.delayed)) }
{
    take_delayed(alloc, state)
}
