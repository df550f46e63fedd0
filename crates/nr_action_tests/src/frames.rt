//! Receipts of actions that are applied.

ghost use Rattle.std.specs.Prelude.{◌≡◌, ◌<◌, ◌≤◌, ◌^◌, true, length, IfOk, IfSome, OnOk, slice_get};
ghost use Rattle.nr_actions.specs.Actions.{HasRoom};
ghost use Rattle.nr_fees.specs.Fees.{deposit_of};
ghost use Rattle.nr_action_tests.specs.Ready.{IsReady};

use crate::refuser::Refuser;
use crate::setting::{
    Ask, KEY, PLACE, State, actions_of, call_key, full_key, id_of, put_code, put_key, state_with,
};
use nr_actions::{ActionFault, Frame, apply};
use nr_bytes::{Blob, List};
use nr_config::Config;
use nr_ids::{AccountId, Hash32};
use nr_records::{Account, Action, ActionReceipt, Body, Permission, Receipt};
use nr_state::Returned;
use std::alloc::{AllocError, Global};

/// What an account has beside its balance.
#[derive(Clone, Copy)]
pub(crate) enum Has {
    Nothing,
    Code,
    FullKey,
    /// A key for calls of `go` with this allowance.
    CallKey(u128),
    /// A key for calls of `go` without an allowance.
    OpenKey,
    /// A key for calls of these methods, with the allowance 100.
    MethodsKey(&'static [&'static str]),
}

/// Who sends what to whom.
#[derive(Clone, Copy)]
pub(crate) struct Sent {
    pub(crate) predecessor: &'static [u8],
    pub(crate) receiver: &'static [u8],
    pub(crate) asks: &'static [Ask],
}

fn put_call_key(
    alloc: Global,
    config: &Config,
    state: &mut State,
    id: &AccountId,
    allowance: Option<u128>,
    methods: &[&str],
) -> Result<(), AllocError>
    requires { IsReady config.now state.old }
    ensures { OnOk result (IsReady config.now state.new) }
{
    let access = call_key(alloc, 0, allowance, methods)?;
    put_key(config, state, id, &access)?;
    Ok(())
}

fn put(
    alloc: Global,
    config: &Config,
    state: &mut State,
    id: &AccountId,
    has: Has,
) -> Result<(), AllocError>
    requires { IsReady config.now state.old }
    ensures { OnOk result (IsReady config.now state.new) }
{
    match has {
        Has::Nothing => Ok(()),
        Has::Code => put_code(config, state, id),
        Has::FullKey => put_key(config, state, id, &full_key(7)),
        Has::CallKey(allowance) => put_call_key(alloc, config, state, id, Some(allowance), &["go"]),
        Has::OpenKey => put_call_key(alloc, config, state, id, None, &["go"]),
        Has::MethodsKey(methods) => put_call_key(alloc, config, state, id, Some(100), methods),
    }
}

/// A state with one account, and what it has.
pub(crate) fn state_of(
    alloc: Global,
    config: &Config,
    id: &AccountId,
    account: &Account,
    has: Has,
) -> Result<State, AllocError>
    ensures { IfOk result (IsReady config.now) }
{
    let mut state = state_with(alloc, config, id, account)?;
    put(alloc, config, &mut state, id, has)?;
    Ok(state)
}

fn act_of(alloc: Global, asks: &[Ask]) -> Result<ActionReceipt, AllocError> {
    Ok(ActionReceipt {
        signer: id_of(alloc, b"alice")?,
        signer_key: KEY,
        gas_price: 1,
        outputs: List::of(Vec::new(alloc)),
        inputs: List::of(Vec::new(alloc)),
        actions: actions_of(alloc, asks)?,
    })
}

/// The frame of a receipt that alice signed; its id is of 32 bytes `r`, and seven ids were drawn.
fn frame_of(alloc: Global, sent: Sent) -> Result<Frame, AllocError>
    ensures burnt { IfOk result (λ frame. frame.call_burnt ≡ 0) }
    ensures promised { IfOk result (λ frame. frame.promised ≡ 0) }
{
    Ok(Frame {
        predecessor: id_of(alloc, sent.predecessor)?,
        receiver: id_of(alloc, sent.receiver)?,
        actor: id_of(alloc, sent.predecessor)?,
        act: act_of(alloc, sent.asks)?,
        receipt_id: Hash32([b'r'; 32]),
        inputs: List::of(Vec::new(alloc)),
        place: PLACE,
        next_ordinal: 7,
        made: List::of(Vec::new(alloc)),
        returned: Returned::Value(Blob::of(Vec::new(alloc))),
        logs: List::of(Vec::new(alloc)),
        call_burnt: 0,
        promised: 0,
    })
}

fn deposit_of(action: &Action) -> u128
    ensures { result ≡ deposit_of action.now }
{
    match action {
        Action::Transfer { deposit } | Action::FunctionCall { deposit, .. } => *deposit,
        _ => 0,
    }
}

/// Whether the receiver has room for what the action brings; false where there is no such action.
fn has_room(state: &State, frame: &Frame, index: usize) -> Result<bool, AllocError>
    ensures index { IfOk result (λ fits. fits ≡ true → index < length frame.now.act.actions) }
    ensures room { IfOk result (λ fits. fits ≡ true
        → IfSome (slice_get frame.now.act.actions index)
        (λ action. HasRoom state.now.world frame.now.receiver (deposit_of action))) }
{
    let actions = frame.act.actions.inner();
    if index >= actions.len() {
        return Ok(false);
    }
    match state.account(&frame.receiver)? {
        Some(account) => Ok(
            account
                .amount
                .checked_add(deposit_of(&actions[index]))
                .is_some(),
        ),
        None => Ok(true),
    }
}

/// Applies the last action of the frame: 0 and 0 where it is done, else its failure and its part.
fn attempt(
    alloc: Global,
    state: &mut State,
    frame: &mut Frame,
    caller: &Refuser,
) -> Result<[u32; 2], AllocError>
    requires ready { IsReady caller.now.config state.old }
    requires burnt { frame.old.call_burnt ≤ 2 ^ 127 }
    requires promised { frame.old.promised ≤ 2 ^ 127 }
{
    if !has_room(state, frame, 0)? {
        return Err(AllocError);
    }
    match apply(alloc, state, &caller.config, frame, 0, caller) {
        Ok(()) => Ok([0, 0]),
        Err(ActionFault::Failed { kind, part }) => Ok([kind, part]),
        Err(ActionFault::Memory) => Err(AllocError),
    }
}

/// What is seen once an action was applied.
#[derive(Clone, Copy, Debug, PartialEq, Eq)]
pub(crate) struct Seen {
    /// The failure and its part, 0 where there is none.
    pub(crate) failure: [u32; 2],
    /// The receiver's amount and usage.
    pub(crate) account: Option<(u128, u64)>,
    /// The nonce and the allowance of the receiver's key.
    pub(crate) key: Option<(u64, Option<u128>)>,
    /// Whether the receiver acts.
    pub(crate) acts: bool,
    /// What a refund gives bob, and the refund's id.
    pub(crate) refund: Option<(u128, Hash32)>,
    /// The next id, and the gas that calls burnt.
    pub(crate) counts: (u64, u128),
}

/// An account's amount and usage.
pub(crate) fn account(state: &State, id: &AccountId) -> Result<Option<(u128, u64)>, AllocError> {
    match state.account(id)? {
        Some(account) => Ok(Some((account.amount, account.storage_usage))),
        None => Ok(None),
    }
}

fn allowance_of(permission: &Permission) -> Option<u128> {
    match permission {
        Permission::Call(call) => call.allowance,
        Permission::Full => None,
    }
}

/// The nonce and the allowance of an account's key.
pub(crate) fn key(
    state: &State,
    id: &AccountId,
) -> Result<Option<(u64, Option<u128>)>, AllocError> {
    match state.key(id, &KEY)? {
        Some(access) => Ok(Some((access.nonce, allowance_of(&access.permission)))),
        None => Ok(None),
    }
}

/// What a body gives by its only action, a transfer without gas.
fn transferred(body: &Body) -> Option<u128> {
    match body {
        Body::Act(act) => match act.actions.inner() {
            [Action::Transfer { deposit }] if act.gas_price == 0 => Some(*deposit),
            _ => None,
        },
        Body::Datum(_) => None,
    }
}

fn is_refund(receipt: &Receipt) -> bool {
    receipt.predecessor.is_system() && receipt.receiver.bytes() == b"bob".as_slice()
}

/// What the only receipt gives bob as a refund, and its id.
fn refund(made: &[Receipt]) -> Option<(u128, Hash32)> {
    match made {
        [receipt] if is_refund(receipt) => {
            transferred(&receipt.body).map(|deposit| (deposit, receipt.receipt_id))
        }
        _ => None,
    }
}

fn look(state: &State, frame: &Frame, failure: [u32; 2]) -> Result<Seen, AllocError> {
    Ok(Seen {
        failure,
        account: account(state, &frame.receiver)?,
        key: key(state, &frame.receiver)?,
        acts: frame.actor == frame.receiver,
        refund: refund(frame.made.inner()),
        counts: (frame.next_ordinal, frame.call_burnt),
    })
}

/// Applies the first action of a receipt.
pub(crate) fn apply_in(
    alloc: Global,
    state: &mut State,
    caller: &Refuser,
    sent: Sent,
) -> Result<Seen, AllocError>
    requires { IsReady caller.now.config state.old }
{
    let mut frame = frame_of(alloc, sent)?;
    let failure = attempt(alloc, state, &mut frame, caller)?;
    look(state, &frame, failure)
}

/// Applies the first action of a receipt in a state where alice has this account.
fn try_apply(
    alloc: Global,
    caller: &Refuser,
    account: &Account,
    has: Has,
    sent: Sent,
) -> Result<Seen, AllocError> {
    let id = id_of(alloc, b"alice")?;
    let mut state = state_of(alloc, &caller.config, &id, account, has)?;
    apply_in(alloc, &mut state, caller, sent)
}

/// What is seen where memory runs out: failure 99.
const NO_MEMORY: Seen = Seen {
    failure: [99, 0],
    account: None,
    key: None,
    acts: false,
    refund: None,
    counts: (0, 0),
};

/// What is seen once the first action of a receipt was applied in a state where alice has this
/// account.
pub(crate) fn applied(
    alloc: Global,
    caller: &Refuser,
    account: &Account,
    has: Has,
    sent: Sent,
) -> Seen {
    try_apply(alloc, caller, account, has, sent).unwrap_or(NO_MEMORY)
}
