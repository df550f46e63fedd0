//! Calls of contracts.

ghost use Rattle.std.specs.Prelude.{◌≡◌, ◌<◌, ◌≤◌, [], true, cond, length, IfOk, IsSome};
ghost use Rattle.std.specs.FinMap.{get};
ghost use Rattle.nr_actions.specs.Accounts.{with_deposit};
ghost use Rattle.nr_actions.specs.Actions.{HasRoom, called, ended};
ghost use Rattle.nr_actions.specs.Calling.{price_of, context_of};
ghost use Rattle.nr_actions.specs.Parts.{Performs};
ghost use Rattle.nr_state.specs.World.{with_account};

use crate::accounts::with_deposit;
use crate::effect::{Effect, Stop, failed};
use crate::failure::Failure;
use crate::frame::Frame;
use nr_bytes::{Blob, List, Text};
use nr_records::{Account, DataReceiver, Spelled};
use nr_state::{CallContext, CallStop, Caller, ShardState};
use nr_triedef::Store;
use std::alloc::{AllocError, Global};

fn price_of(frame: &Frame) -> u128
    ensures { result ≡ price_of frame.now }
{
    if frame.predecessor.is_system() {
        0
    } else {
        frame.act.gas_price
    }
}

fn outputs_of(alloc: Global, frame: &Frame, last: bool) -> Result<List<DataReceiver>, AllocError>
    ensures { IfOk result (λ outputs. outputs ≡ cond last frame.now.act.outputs []) }
{
    if last {
        frame.act.outputs.duplicate(alloc)
    } else {
        Ok(List::of(Vec::new(alloc)))
    }
}

/// What a call is given by its receipt.
pub(crate) fn context_of(
    alloc: Global,
    frame: &Frame,
    last: bool,
    method: &Text,
    args: &Blob,
    gas: u64,
    deposit: u128,
) -> Result<CallContext, AllocError>
    ensures { IfOk result (λ context. context ≡ context_of frame.now last method.now args.now gas deposit) }
{
    Ok(CallContext {
        current: frame.receiver.duplicate(alloc)?,
        predecessor: frame.predecessor.duplicate(alloc)?,
        signer: frame.act.signer.duplicate(alloc)?,
        signer_key: frame.act.signer_key,
        method: method.duplicate(alloc)?,
        args: args.duplicate(alloc)?,
        deposit,
        gas,
        gas_price: price_of(frame),
        inputs: frame.inputs.duplicate(alloc)?,
        outputs: outputs_of(alloc, frame, last)?,
        receipt_id: frame.receipt_id,
        next_ordinal: frame.next_ordinal,
        height: frame.place.height,
        timestamp: frame.place.timestamp,
    })
}

/// Calls the code of an account that has the deposit already. Where it fails, the account is as it
/// was before.
#[tactic(auto, using(crate::proofs::Standing::stands_with_account))]
fn run<S: Store, C: Caller<S>>(
    alloc: Global,
    state: &mut ShardState<S>,
    frame: &Frame,
    account: &Account,
    context: &CallContext,
    last: bool,
    caller: &C,
) -> Result<Effect, Stop>
    requires whole { state.old.whole ≡ true }
    requires config { C.config caller.now ≡ state.old.config }
    requires current { context.now.current ≡ frame.now.receiver }
    requires code { IsSome (get state.old.world.code frame.now.receiver) }
    requires spare { 0 < state.old.spare }
    requires marks { length state.old.marks ≤ 6 }
    ensures { Performs result state.old state.new frame.now
        (ended frame.now last (C.meaning caller.now (with_account state.old.world frame.now.receiver account.now)
        context.now)) }
{
    state.mark();
    state.set_account(&frame.receiver, account)?;
    match caller.call(alloc, state, context) {
        Ok(end) => {
            state.keep();
            Ok(Effect::Called(end, last))
        }
        Err(CallStop::Failed { kind, part, burnt }) => {
            state.back();
            Err(Stop::Failed { kind, part, burnt })
        }
        Err(CallStop::Memory) => Err(Stop::Memory),
    }
}

/// Gives the receiver the deposit and calls its code.
pub(crate) fn call<S: Store, C: Caller<S>>(
    alloc: Global,
    state: &mut ShardState<S>,
    frame: &Frame,
    context: &CallContext,
    last: bool,
    caller: &C,
) -> Result<Effect, Stop>
    requires whole { state.old.whole ≡ true }
    requires config { C.config caller.now ≡ state.old.config }
    requires current { context.now.current ≡ frame.now.receiver }
    requires spare { 0 < state.old.spare }
    requires marks { length state.old.marks ≤ 6 }
    requires room { HasRoom state.old.world frame.now.receiver context.now.deposit }
    ensures { Performs result state.old state.new frame.now
        (called (C.meaning caller.now) state.old.world frame.now last context.now) }
{
    let Some(account) = state.account(&frame.receiver)? else {
        return Err(failed(Failure::NoAccount));
    };
    let code = state.code(&frame.receiver)?;
    if code.is_none() {
        return Err(failed(Failure::NoCode));
    }
    let account = with_deposit(&account, context.deposit);
    run(alloc, state, frame, &account, context, last, caller)
}
