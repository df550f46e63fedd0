//! The end of an account.

ghost use Rattle.std.specs.Prelude.{◌≡◌, true, IfOk};
ghost use Rattle.nr_actions.specs.Actions.{deleted};
ghost use Rattle.nr_actions.specs.Parts.{Performs, refund_to};
ghost use Rattle.nr_state.specs.Changes.{usage_of_code};

use crate::drawing::next_id;
use crate::effect::{Effect, Stop, failed};
use crate::failure::Failure;
use crate::frame::Frame;
use crate::ownership::is_other;
use crate::refunds::deposit_refund;
use nr_config::entries::DELETE_STATE_LIMIT;
use nr_ids::AccountId;
use nr_records::Receipt;
use nr_state::ShardState;
use nr_triedef::Store;
use std::alloc::{AllocError, Global};

/// How many bytes the receiver's code has: 0 where it has none.
fn code_length<S: Store>(state: &ShardState<S>, frame: &Frame) -> Result<u64, AllocError>
    ensures { IfOk result (λ length. length ≡ usage_of_code state.now.world frame.now.receiver) }
{
    match state.code(&frame.receiver)? {
        Some(code) => Ok(code.len() as u64),
        None => Ok(0),
    }
}

/// The receipt of what the account had, unless it had nothing.
fn refund_to(
    alloc: Global,
    frame: &Frame,
    beneficiary: &AccountId,
    amount: u128,
) -> Result<Option<Receipt>, AllocError>
    ensures { IfOk result (λ refund. refund ≡ refund_to frame.now beneficiary.now amount) }
{
    if amount == 0 {
        return Ok(None);
    }
    let id = next_id(frame);
    let receiver = beneficiary.duplicate(alloc)?;
    Ok(Some(deposit_refund(alloc, receiver, id, amount)?))
}

/// Removes the receiver's account with all that it owns. What it had goes to the beneficiary, and
/// the predecessor acts again.
pub(crate) fn delete<S: Store>(
    alloc: Global,
    state: &mut ShardState<S>,
    frame: &Frame,
    beneficiary: &AccountId,
) -> Result<Effect, Stop>
    requires { state.old.whole ≡ true }
    ensures { Performs result state.old state.new frame.now
        (deleted state.old.config state.old.world frame.now beneficiary.now) }
{
    let Some(account) = state.account(&frame.receiver)? else {
        return Err(failed(Failure::NoAccount));
    };
    if is_other(frame) {
        return Err(failed(Failure::NoPermission));
    }
    if account.locked != 0 {
        return Err(failed(Failure::Locked));
    }
    let length = code_length(state, frame)?;
    if account.storage_usage.saturating_sub(length) > state.config().entry(DELETE_STATE_LIMIT) {
        return Err(failed(Failure::LargeState));
    }
    let refund = refund_to(alloc, frame, beneficiary, account.amount)?;
    state.remove_account(&frame.receiver)?;
    Ok(Effect::Deleted(frame.predecessor.duplicate(alloc)?, refund))
}
