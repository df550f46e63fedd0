//! What an action does.

ghost use Rattle.std.specs.Prelude.{◌≡◌, ◌+◌, ◌<◌, ◌^◌, ◌≤◌, ◌==◌, true, length, IfSome, slice_get};
ghost use Rattle.nr_actions.specs.Actions.{act, HasRoom, Applies};
ghost use Rattle.nr_actions.specs.Parts.{Performs};
ghost use Rattle.nr_fees.specs.Fees.{deposit_of};

use crate::calling::{call, context_of};
use crate::creation::create;
use crate::deletion::delete;
use crate::effect::{Effect, Stop, note};
use crate::fault::ActionFault;
use crate::frame::Frame;
use crate::ownership::{add_key, delete_key, deploy};
use crate::transfer::transfer;
use nr_config::Config;
use nr_records::Action;
use nr_state::{Caller, ShardState};
use nr_triedef::Store;
use std::alloc::Global;

/// Does an action on the state, and tells what it does to its frame.
#[tactic(auto, unfolding(crate::specs::Actions::act))]
fn perform<S: Store, C: Caller<S>>(
    alloc: Global,
    state: &mut ShardState<S>,
    frame: &Frame,
    action: &Action,
    last: bool,
    caller: &C,
) -> Result<Effect, Stop>
    requires whole { state.old.whole ≡ true }
    requires config { C.config caller.now ≡ state.old.config }
    requires spare { 0 < state.old.spare }
    requires marks { length state.old.marks ≤ 6 }
    requires room { HasRoom state.old.world frame.now.receiver (deposit_of action.now) }
    ensures { Performs result state.old state.new frame.now
        (act state.old.config (C.meaning caller.now) state.old.world frame.now last action.now) }
{
    match action {
        Action::CreateAccount => create(alloc, state, frame),
        Action::DeployContract { code } => deploy(state, frame, code.inner()),
        Action::FunctionCall {
            method,
            args,
            gas,
            deposit,
        } => {
            let context = context_of(alloc, frame, last, method, args, *gas, *deposit)?;
            call(alloc, state, frame, &context, last, caller)
        }
        Action::Transfer { deposit } => transfer(alloc, state, frame, *deposit),
        Action::AddKey {
            public_key,
            access_key,
        } => add_key(state, frame, public_key, access_key),
        Action::DeleteKey { public_key } => delete_key(state, frame, public_key),
        Action::DeleteAccount { beneficiary } => delete(alloc, state, frame, beneficiary),
    }
}

/// Does the action with this index, from 0, of the frame's receipt.
///
/// # Errors
///
/// The action's failure, by its number and part: the state is then as it was, and in the frame only
/// `call_burnt` is more, by the gas that a failed call burnt. Or `Memory`; of the state and the frame
/// nothing is said then.
pub fn apply<S: Store, C: Caller<S>>(
    alloc: Global,
    state: &mut ShardState<S>,
    config: &Config,
    frame: &mut Frame,
    index: u32,
    caller: &C,
) -> Result<(), ActionFault>
    requires whole { state.old.whole ≡ true }
    requires config { state.old.config ≡ config.now }
    requires caller { C.config caller.now ≡ config.now }
    requires spare { 0 < state.old.spare }
    requires marks { length state.old.marks ≤ 6 }
    requires index { index < length frame.old.act.actions }
    requires burnt { frame.old.call_burnt ≤ 2 ^ 127 }
    requires promised { frame.old.promised ≤ 2 ^ 127 }
    // What the action brings fits in the receiver's balance.
    requires room { IfSome (slice_get frame.old.act.actions index)
        (λ action. HasRoom state.old.world frame.old.receiver (deposit_of action)) }
    ensures { IfSome (slice_get frame.old.act.actions index)
        (λ action. Applies result state.old state.new frame.old frame.new
        (act config.now (C.meaning caller.now) state.old.world frame.old (index + 1 == length frame.old.act.actions)
        action)) }
{
    let actions = frame.act.actions.inner();
    let index = index as usize;
    let last = index + 1 == actions.len();
    match perform(alloc, state, frame, &actions[index], last, caller) {
        Ok(effect) => {
            note(frame, effect)?;
            Ok(())
        }
        Err(Stop::Failed { kind, part, burnt }) => {
            frame.call_burnt += u128::from(burnt);
            Err(ActionFault::Failed { kind, part })
        }
        Err(Stop::Memory) => Err(ActionFault::Memory),
    }
}
