//! Calls through what every caller promises.

ghost use Rattle.std.specs.Prelude.{◌≡◌, ◌≤◌, true, [], IfOk, length};
ghost use Rattle.nr_config.specs.Config.{free};
ghost use Rattle.nr_state.specs.Calls.{CanCall};

use crate::callers::{Refuser, Sender};
use crate::setting::{KEY, State, id_of, put_code, state_with};
use nr_bytes::{Blob, List, Text};
use nr_config::Config;
use nr_ids::{AccountId, Hash32, Height};
use nr_records::Receipt;
use nr_state::{CallContext, CallEnd, CallStop, Caller};
use nr_store::PlainStore;
use std::alloc::{AllocError, Global};
use std::test::Fail;

/// A call of alice by bob with 90 gas, whose receipt's id is of 32 bytes `r`.
fn context_of(alloc: Global) -> Result<CallContext, AllocError> {
    Ok(CallContext {
        current: id_of(alloc, b"alice")?,
        predecessor: id_of(alloc, b"bob")?,
        signer: id_of(alloc, b"bob")?,
        signer_key: KEY,
        method: Text::of(String::from_str(alloc, "go")?),
        args: Blob::of(Vec::new(alloc)),
        deposit: 0,
        gas: 90,
        gas_price: 1,
        inputs: List::of(Vec::new(alloc)),
        outputs: List::of(Vec::new(alloc)),
        receipt_id: Hash32([b'r'; 32]),
        next_ordinal: 7,
        height: Height(5),
        timestamp: 0,
    })
}

fn can_call(state: &State, context: &CallContext) -> Result<bool, AllocError>
    ensures { IfOk result (λ fits. fits ≡ true → CanCall state.now.world context.now) }
{
    if state.account(&context.current)?.is_none() {
        return Ok(false);
    }
    Ok(state.code(&context.current)?.is_some())
}

fn is_from_alice(receipt: &Receipt) -> bool {
    receipt.predecessor.bytes() == b"alice".as_slice()
        && receipt.receiver.bytes() == b"bob".as_slice()
}

/// How many receipts from alice to bob were made, and the next id; or the failure and its part.
fn numbers(outcome: Result<CallEnd, CallStop>) -> [u64; 2] {
    match outcome {
        Ok(end) => match end.made.inner() {
            [receipt] if is_from_alice(receipt) => [1, end.next_ordinal],
            _ => [0, end.next_ordinal],
        },
        Err(CallStop::Failed { kind, part, .. }) => [u64::from(kind), u64::from(part)],
        Err(CallStop::Memory) => [99, 0],
    }
}

/// What a call of alice comes to.
fn called<C: Caller<PlainStore>>(
    alloc: Global,
    state: &mut State,
    caller: &C,
) -> Result<[u64; 2], AllocError>
    requires whole { state.old.whole ≡ true }
    requires config { state.old.config ≡ C.config caller.now }
    requires marks { length state.old.marks ≤ 7 }
{
    let context = context_of(alloc)?;
    if !can_call(state, &context)? {
        return Err(AllocError);
    }
    Ok(numbers(caller.call(alloc, state, &context)))
}

/// Alice, who has 5 tokens and code.
fn alice_state(alloc: Global, id: &AccountId) -> Result<State, AllocError>
    ensures whole { IfOk result (λ state. state.whole ≡ true) }
    ensures config { IfOk result (λ state. state.config ≡ free) }
    ensures marks { IfOk result (λ state. state.marks ≡ []) }
{
    let mut state = state_with(alloc, id)?;
    put_code(&mut state, id, b"abc")?;
    Ok(state)
}

fn amount(state: &State, id: &AccountId) -> Result<Option<u128>, AllocError> {
    match state.account(id)? {
        Some(account) => Ok(Some(account.amount)),
        None => Ok(None),
    }
}

#[test]
fn a_call_fails_and_changes_nothing(rt: HostRuntime) -> Result<(), Fail> {
    let alloc = rt.alloc();
    let id = id_of(alloc, b"alice")?;
    let mut state = alice_state(alloc, &id)?;
    let caller = Refuser {
        config: Config::free(),
    };
    assert_eq!(rt; called(alloc, &mut state, &caller)?, [14, 0]);
    assert_eq!(rt; amount(&state, &id)?, Some(5));
    Ok(())
}

#[test]
fn a_call_sends_a_token(rt: HostRuntime) -> Result<(), Fail> {
    let alloc = rt.alloc();
    let id = id_of(alloc, b"alice")?;
    let mut state = alice_state(alloc, &id)?;
    let caller = Sender {
        config: Config::free(),
    };
    assert_eq!(rt; called(alloc, &mut state, &caller)?, [1, 8]);
    assert_eq!(rt; amount(&state, &id)?, Some(4));
    Ok(())
}
