//! How a receipt of actions is executed.

ghost use Rattle.std.specs.Prelude.{◌≡◌, ◌+◌, ◌*◌, ◌-◌, ◌<◌, ◌≤◌, ◌^◌, true, IfOk, OnOk, length};
ghost use Rattle.nr_fees.specs.Fees.{receipt_tokens};
ghost use Rattle.nr_receipt.specs.Drawing.{with_gas_refund, deposits_lost};
ghost use Rattle.nr_receipt.specs.Execution.{Executes, OfActions, executed_as, status_of, succeeded, failed, dropped};
ghost use Rattle.nr_receipt.specs.Execution.{ended, execute};
ghost use Rattle.nr_receipt.specs.Frames.{prepaid, burning_price, burnt_gas};
ghost use Rattle.nr_receipt.specs.Parts.{CanConclude, IsMarked, IsReady, Tries};
ghost use Rattle.nr_receipt.specs.Rewards.{reward_of, with_reward, reward_paid};
ghost use Rattle.nr_receipt.specs.Running.{run_actions};
ghost use Rattle.nr_records.specs.declared.chunk_result.RunStatus.TheVariants.{Failure};
ghost use Rattle.nr_state.specs.Queues.{is_act};
ghost use Rattle.nr_state.specs.Tokens.{world_tokens};
ghost use Rattle.nr_state.specs.Valid.{IsValidWorld, IsBounded};
ghost use Rattle.nr_state.specs.View.{with_world};

use crate::drawing::{deposits_lost, give_gas_back};
use crate::executed::Executed;
use crate::frames::{drop_made, first_frame};
use crate::gas::{burnt_gas, gas_back, tokens_burnt};
use crate::results::{give_result, give_up};
use crate::reward::{pay_reward, reward_of};
use crate::running::{Stop, run_actions};
use nr_actions::Frame;
use nr_actions::laws::action_laws;
use nr_bytes::{Blob, List};
use nr_config::Config;
use nr_records::{Outcome, Receipt, RunStatus};
use nr_state::{Caller, Place, Returned, ShardState};
use nr_triedef::Store;
use std::alloc::{AllocError, Global};

/// Gives the signer back what is left of the tokens for its gas, where so much is burnt.
pub(crate) fn refund_gas(
    alloc: Global,
    config: &Config,
    frame: &mut Frame,
    gas: u64,
) -> Result<(), AllocError>
    requires price { frame.old.act.gas_price < 2 ^ 64 }
    requires prepaid { prepaid config.now frame.old < 2 ^ 64 }
    ensures { OnOk result (frame.new ≡ with_gas_refund config.now gas frame.old) }
{
    let amount = gas_back(config, frame, gas);
    give_gas_back(alloc, frame, amount)?;
    Ok(())
}

/// Pays the reward and refunds gas. Tells the tokens that are burnt, where so much gas is burnt and
/// so many tokens are lost.
fn conclude<S: Store>(
    alloc: Global,
    state: &mut ShardState<S>,
    config: &Config,
    frame: &mut Frame,
    gas: u64,
    lost: u128,
) -> Result<u128, AllocError>
    requires whole { state.old.whole ≡ true }
    requires can { CanConclude config.now state.old.world frame.old gas lost }
    ensures burnt { IfOk result (λ burnt. burnt
        ≡ gas * burning_price frame.old - reward_paid state.old.world frame.old.receiver
        (reward_of config.now frame.old) + lost) }
    ensures world { OnOk result (state.new ≡ with_world state.old
        (with_reward state.old.world frame.old.receiver (reward_of config.now frame.old))) }
    ensures refunded { OnOk result (frame.new ≡ with_gas_refund config.now gas frame.old) }
{
    let reward = reward_of(config, frame);
    let paid = pay_reward(state, &frame.receiver, reward)?;
    let burnt = tokens_burnt(frame, gas).saturating_sub(paid) + lost;
    refund_gas(alloc, config, frame, gas)?;
    Ok(burnt)
}

/// What is told of a receipt, and what it made.
pub(crate) fn executed_as(frame: Frame, status: RunStatus, gas: u64, burnt: u128) -> Executed
    ensures { result ≡ executed_as frame status gas burnt }
{
    Executed {
        outcome: Outcome {
            receipt_id: frame.receipt_id,
            status,
            gas,
            burnt,
            logs: frame.logs,
        },
        made: frame.made,
    }
}

fn status_of(returned: Returned) -> RunStatus
    ensures { result ≡ status_of returned }
{
    match returned {
        Returned::Value(bytes) => RunStatus::Value(bytes),
        Returned::Promise(id) => RunStatus::Promise(id),
    }
}

/// As above, of one that succeeded.
fn executed_well(frame: Frame, gas: u64, burnt: u128) -> Executed
    ensures { result ≡ executed_as frame (status_of frame.returned) gas burnt }
{
    Executed {
        outcome: Outcome {
            receipt_id: frame.receipt_id,
            status: status_of(frame.returned),
            gas,
            burnt,
            logs: frame.logs,
        },
        made: frame.made,
    }
}

/// What comes behind the last action, where none failed.
fn succeed<S: Store>(
    alloc: Global,
    state: &mut ShardState<S>,
    config: &Config,
    mut frame: Frame,
) -> Result<Executed, AllocError>
    requires whole { state.old.whole ≡ true }
    requires can { CanConclude config.now state.old.world frame
        (burnt_gas config.now frame (length frame.act.actions)) 0 }
    ensures { Executes result state.old state.new (succeeded config.now state.old.world frame) }
{
    let gas = burnt_gas(config, &frame, frame.act.actions.inner().len());
    give_result(alloc, &mut frame)?;
    let burnt = conclude(alloc, state, config, &mut frame, gas, 0)?;
    Ok(executed_well(frame, gas, burnt))
}

/// What comes behind a failure, where the changes are rolled back.
fn fail<S: Store>(
    alloc: Global,
    state: &mut ShardState<S>,
    config: &Config,
    mut frame: Frame,
    index: u32,
    kind: u32,
    part: u32,
) -> Result<Executed, AllocError>
    requires whole { state.old.whole ≡ true }
    requires can { CanConclude config.now state.old.world frame (burnt_gas config.now frame (index + 1))
        (deposits_lost frame) }
    ensures { Executes result state.old state.new (failed config.now state.old.world index kind part (dropped frame)) }
{
    let gas = burnt_gas(config, &frame, index as usize + 1);
    let lost = deposits_lost(&frame);
    drop_made(alloc, &mut frame);
    give_up(alloc, &mut frame)?;
    let burnt = conclude(alloc, state, config, &mut frame, gas, lost)?;
    let status = RunStatus::Failure { index, kind, part };
    Ok(executed_as(frame, status, gas, burnt))
}

/// Makes a checkpoint, and room for one more.
fn make_checkpoint<S: Store>(state: &mut ShardState<S>) -> Result<(), AllocError>
    requires whole { state.old.whole ≡ true }
    requires marks { length state.old.marks ≤ 5 }
    ensures { OnOk result (IsMarked state.old state.new) }
{
    state.reserve_marks(2)?;
    state.mark();
    Ok(())
}

/// Does all actions and checks the receiver's storage. Where something fails, the changes are rolled
/// back.
fn try_actions<S: Store, C: Caller<S>>(
    alloc: Global,
    state: &mut ShardState<S>,
    config: &Config,
    frame: &mut Frame,
    caller: &C,
) -> Result<(), Stop>
    requires whole { state.old.whole ≡ true }
    requires config { state.old.config ≡ config.now }
    requires caller { C.config caller.now ≡ config.now }
    requires marks { length state.old.marks ≤ 5 }
    requires ready { IsReady config.now state.old.world frame.old }
    ensures { Tries config.now result state.old state.new frame.new
        (run_actions config.now (C.meaning caller.now) state.old.world frame.old) }
{
    action_laws();
    let count = u32::try_from(frame.act.actions.inner().len()).or(Err(Stop::Memory))?;
    make_checkpoint(state)?;
    match run_actions(alloc, state, config, frame, count, caller) {
        Ok(()) => {
            state.keep();
            Ok(())
        }
        Err(Stop::Failed { index, kind, part }) => {
            state.back();
            Err(Stop::Failed { index, kind, part })
        }
        Err(Stop::Memory) => Err(Stop::Memory),
    }
}

/// Executes a receipt from its first frame on.
fn execute_frame<S: Store, C: Caller<S>>(
    alloc: Global,
    state: &mut ShardState<S>,
    config: &Config,
    mut frame: Frame,
    caller: &C,
) -> Result<Executed, AllocError>
    requires whole { state.old.whole ≡ true }
    requires config { state.old.config ≡ config.now }
    requires caller { C.config caller.now ≡ config.now }
    requires marks { length state.old.marks ≤ 5 }
    requires ready { IsReady config.now state.old.world frame }
    ensures { Executes result state.old state.new
        (ended config.now state.old.world (run_actions config.now (C.meaning caller.now) state.old.world frame)) }
{
    match try_actions(alloc, state, config, &mut frame, caller) {
        Ok(()) => succeed(alloc, state, config, frame),
        Err(Stop::Failed { index, kind, part }) => {
            fail(alloc, state, config, frame, index, kind, part)
        }
        Err(Stop::Memory) => Err(AllocError),
    }
}

/// Executes a receipt of actions, which has the data that it waited for: does its actions, in
/// order, all or none, pays the reward, gives the result to those who wait for it, and refunds
/// deposits and gas.
///
/// # Errors
///
/// Where memory runs out, or the receipt has 2^32 actions or more; of the state nothing is said then.
pub fn execute<S: Store, C: Caller<S>>(
    alloc: Global,
    state: &mut ShardState<S>,
    config: &Config,
    receipt: Receipt,
    inputs: List<Option<Blob>>,
    place: &Place,
    caller: &C,
) -> Result<Executed, AllocError>
    requires whole { state.old.whole ≡ true }
    requires config { state.old.config ≡ config.now }
    requires caller { C.config caller.now ≡ config.now }
    requires marks { length state.old.marks ≤ 5 }
    requires actions { is_act receipt.body ≡ true }
    requires valid { IsValidWorld config.now state.old.world }
    requires bounded { IsBounded config.now receipt }
    requires room { world_tokens config.now state.old.world + receipt_tokens config.now receipt ≤ 2 ^ 127 }
    ensures { OfActions receipt.body (λ act. Executes result state.old state.new
        (execute config.now (C.meaning caller.now) state.old.world receipt act inputs place.now)) }
{
    let frame = first_frame(alloc, receipt, inputs, place)?;
    execute_frame(alloc, state, config, frame, caller)
}
