//! Two callers: one fails each call, and one sends a token with each.

ghost use Rattle.std.specs.Prelude.{◌≡◌, true, false, IfOk, OnOk, MatchOption, nat_le};
ghost use Rattle.std.specs.FinMap.{get};
ghost use Rattle.nr_fees.specs.Fees.{exec_gas};
ghost use Rattle.nr_state.specs.View.{with_world};
ghost use Rattle.nr_state.specs.World.{with_account};
ghost use Rattle.nr_state_tests.specs.Sending.{sent, sent_actions, sent_receipt, sent_end, with_less, can_send};
ghost use Rattle.nr_state_tests.specs.Sends.{Sends};

use nr_bytes::{Blob, List};
use nr_config::Config;
use nr_fees::exec_gas;
use nr_ids::derive;
use nr_records::{Account, Action, ActionReceipt, Body, Receipt, Spelled};
use nr_state::{CallContext, CallEnd, CallStop, Caller, Returned, ShardState};
use nr_triedef::Store;
use std::alloc::{AllocError, Global};

/// Fails each call as a call of an absent method fails.
#[derive(Clone, Copy)]
pub(crate) struct Refuser {
    pub(crate) config: Config,
}

impl<S: Store> Caller<S> for Refuser {
    ghost use Rattle.nr_state_tests.specs.Refusing.{refused, refused_law, refused_local};

    ghost config = { λ caller. caller.config };

    ghost meaning = { λ caller. refused };

    ghost law = { λ caller. refused_law caller.config };

    ghost local = { λ caller. refused_local };

    fn call(
        &self,
        _alloc: Global,
        _state: &mut ShardState<S>,
        _context: &CallContext,
    ) -> Result<CallEnd, CallStop> {
        Err(CallStop::Failed {
            kind: 14,
            part: 0,
            burnt: 0,
        })
    }
}

/// Sends one token of the current account back to the account that made the receipt.
#[derive(Clone, Copy)]
pub(crate) struct Sender {
    pub(crate) config: Config,
}

fn actions_of(alloc: Global) -> Result<List<Action>, AllocError>
    ensures { IfOk result (λ actions. actions ≡ sent_actions) }
{
    let transfer = Action::Transfer { deposit: 1 };
    Ok(List::of(vec![in alloc; transfer]?))
}

fn body_of(alloc: Global, context: &CallContext) -> Result<Body, AllocError>
    ensures { IfOk result (λ body. body ≡ (sent_receipt context.now).body) }
{
    Ok(Body::Act(ActionReceipt {
        signer: context.signer.duplicate(alloc)?,
        signer_key: context.signer_key,
        gas_price: context.gas_price,
        outputs: List::of(Vec::new(alloc)),
        inputs: List::of(Vec::new(alloc)),
        actions: actions_of(alloc)?,
    }))
}

fn receipt_of(alloc: Global, context: &CallContext) -> Result<Receipt, AllocError>
    ensures { IfOk result (λ receipt. receipt ≡ sent_receipt context.now) }
{
    Ok(Receipt {
        predecessor: context.current.duplicate(alloc)?,
        receiver: context.predecessor.duplicate(alloc)?,
        receipt_id: derive(&context.receipt_id, context.height, context.next_ordinal),
        body: body_of(alloc, context)?,
    })
}

/// The end of a call that promised so much gas.
fn end_of(
    alloc: Global,
    config: &Config,
    context: &CallContext,
    promised: u64,
) -> Result<CallEnd, AllocError>
    requires { promised ≡ exec_gas config.now sent_actions }
    ensures { IfOk result (λ end. end ≡ sent_end config.now context.now) }
{
    let receipt = receipt_of(alloc, context)?;
    Ok(CallEnd {
        burnt: 0,
        promised,
        returned: Returned::Value(Blob::of(Vec::new(alloc))),
        made: List::of(vec![in alloc; receipt]?),
        next_ordinal: context.next_ordinal.checked_add(1).ok_or(AllocError)?,
        logs: List::of(Vec::new(alloc)),
    })
}

/// The gas that the receipt costs, where the call has it.
fn affordable(alloc: Global, config: &Config, limit: u64) -> Result<Option<u64>, AllocError>
    ensures { IfOk result (λ gas. MatchOption gas (nat_le (exec_gas config.now sent_actions) limit ≡ false)
        (λ n. (n ≡ exec_gas config.now sent_actions) × (nat_le (exec_gas config.now sent_actions) limit ≡ true))) }
{
    let actions = actions_of(alloc)?;
    let Some(gas) = exec_gas(config, &actions) else {
        return Ok(None);
    };
    if limit < gas {
        return Ok(None);
    }
    Ok(Some(gas))
}

/// The same, where the account has a token.
fn promised_by(
    alloc: Global,
    config: &Config,
    limit: u64,
    account: &Account,
) -> Result<Option<u64>, AllocError>
    ensures { IfOk result (λ gas. MatchOption gas (can_send config.now limit account.now ≡ false)
        (λ n. (n ≡ exec_gas config.now sent_actions) × (can_send config.now limit account.now ≡ true))) }
{
    if account.amount == 0 {
        return Ok(None);
    }
    affordable(alloc, config, limit)
}

/// Takes one token from an account that has one.
fn take<S: Store>(
    state: &mut ShardState<S>,
    context: &CallContext,
    account: &Account,
) -> Result<(), AllocError>
    requires whole { state.old.whole ≡ true }
    requires stands { get state.old.world.accounts context.now.current ≡ Some account.now }
    ensures { OnOk result (state.new ≡ with_world state.old
        (with_account state.old.world context.now.current (with_less account.now))) }
{
    let amount = account.amount.saturating_sub(1);
    state.set_account(&context.current, &Account { amount, ..*account })?;
    Ok(())
}

/// Sends the token, where that can be done.
fn send<S: Store>(
    alloc: Global,
    state: &mut ShardState<S>,
    config: &Config,
    context: &CallContext,
) -> Result<Option<CallEnd>, AllocError>
    requires { state.old.whole ≡ true }
    ensures { IfOk result (λ end. Sends end state.old state.new (sent config.now state.old.world context.now)) }
{
    let Some(account) = state.account(&context.current)? else {
        return Ok(None);
    };
    let Some(promised) = promised_by(alloc, config, context.gas, &account)? else {
        return Ok(None);
    };
    let end = end_of(alloc, config, context, promised)?;
    take(state, context, &account)?;
    Ok(Some(end))
}

impl<S: Store> Caller<S> for Sender {
    ghost use Rattle.nr_state_tests.specs.Sending.{sent, sent_law, sent_local};

    ghost config = { λ caller. caller.config };

    ghost meaning = { λ caller. sent caller.config };

    ghost law = { λ caller. sent_law caller.config };

    ghost local = { λ caller. sent_local caller.config };

    fn call(
        &self,
        alloc: Global,
        state: &mut ShardState<S>,
        context: &CallContext,
    ) -> Result<CallEnd, CallStop> {
        match send(alloc, state, &self.config, context) {
            Ok(Some(end)) => Ok(end),
            Ok(None) => Err(CallStop::Failed {
                kind: 14,
                part: 0,
                burnt: 0,
            }),
            Err(_) => Err(CallStop::Memory),
        }
    }
}
