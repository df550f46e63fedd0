//! Calls over the store in memory.

ghost use Rattle.std.specs.Prelude.{◌≡◌, IfOk, [], true};

use nr_bytes::{Blob, List, Text};
use nr_config::Config;
use nr_contract::ContractCaller;
use nr_ids::{AccountId, Hash32, Height, PublicKey};
use nr_records::Account;
use nr_state::{CallContext, CallEnd, CallStop, Caller, ShardState};
use nr_store::PlainStore;
use std::alloc::{AllocError, Global};

/// A module whose method `f` has two instructions that do nothing.
const TWO: [u8; 33] = [
    0, 97, 115, 109, 1, 0, 0, 0, 1, 4, 1, 96, 0, 0, 3, 2, 1, 0, 7, 5, 1, 1, 102, 0, 0, 10, 6, 1, 4,
    0, 1, 1, 11,
];

/// As long, but its second instruction is `unreachable`.
const TRAP: [u8; 33] = [
    0, 97, 115, 109, 1, 0, 0, 0, 1, 4, 1, 96, 0, 0, 3, 2, 1, 0, 7, 5, 1, 1, 102, 0, 0, 10, 6, 1, 4,
    0, 1, 0, 11,
];

fn con(alloc: Global) -> Result<AccountId, AllocError> {
    AccountId::parse(alloc, b"con").map_err(|_| AllocError)
}

fn state_of(
    alloc: Global,
    config: &Config,
    code: &[u8],
) -> Result<ShardState<PlainStore>, AllocError>
    ensures whole { IfOk result (λ state. state.whole ≡ true) }
    ensures config { IfOk result (λ state. state.config ≡ config.now) }
    ensures marks { IfOk result (λ state. state.marks ≡ []) }
{
    let mut state = ShardState::new(alloc, PlainStore::new(alloc), config);
    let account = Account {
        amount: 1000,
        locked: 0,
        code_hash: Hash32([0; 32]),
        storage_usage: 182,
    };
    let id = con(alloc)?;
    state.set_account(&id, &account)?;
    if state.account(&id)?.is_none() {
        return Err(AllocError);
    }
    state.set_code(&id, code)?;
    Ok(state)
}

fn context_of(alloc: Global, method: &str, gas: u64) -> Result<CallContext, AllocError> {
    Ok(CallContext {
        current: con(alloc)?,
        predecessor: con(alloc)?,
        signer: con(alloc)?,
        signer_key: PublicKey::Ed25519([1; 32]),
        method: Text::of(String::from_str(alloc, method)?),
        args: Blob::of(Vec::new(alloc)),
        deposit: 0,
        gas,
        gas_price: 100,
        inputs: List::of(Vec::new(alloc)),
        outputs: List::of(Vec::new(alloc)),
        receipt_id: Hash32([7; 32]),
        next_ordinal: 0,
        height: Height(1),
        timestamp: 1,
    })
}

/// The kind of a failure, 0 for an end and 1 for want of memory, its part, and the gas burnt.
fn told(answer: Result<CallEnd, CallStop>) -> [u64; 3] {
    match answer {
        Ok(end) => [0, end.made.inner().len() as u64, end.burnt],
        Err(CallStop::Failed { kind, part, burnt }) => [u64::from(kind), u64::from(part), burnt],
        Err(CallStop::Memory) => [1, 0, 0],
    }
}

fn called(
    alloc: Global,
    caller: &ContractCaller,
    config: &Config,
    code: &[u8],
    method: &str,
    gas: u64,
) -> Result<[u64; 3], AllocError>
    requires { caller.now ≡ config.now }
{
    let mut state = state_of(alloc, config, code)?;
    let context = context_of(alloc, method, gas)?;
    if state.account(&context.current)?.is_none() || state.code(&context.current)?.is_none() {
        return Err(AllocError);
    }
    Ok(told(caller.call(alloc, &mut state, &context)))
}

fn tried(
    alloc: Global,
    caller: &ContractCaller,
    config: &Config,
    code: &[u8],
    method: &str,
    gas: u64,
) -> [u64; 3]
    requires { caller.now ≡ config.now }
{
    called(alloc, caller, config, code, method, gas).unwrap_or([1, 1, 1])
}

#[test]
fn a_call_ends_or_fails(rt: HostRuntime) {
    let alloc = rt.alloc();
    let free = Config::free();
    let caller = ContractCaller::new(&free);
    assert_eq!(rt; tried(alloc, &caller, &free, &TWO, "f", 9), [0, 0, 2]);
    assert_eq!(rt; tried(alloc, &caller, &free, &TRAP, "f", 9), [15, 1, 2]);
    assert_eq!(rt; tried(alloc, &caller, &free, &TWO, "g", 9), [14, 0, 0]);
    assert_eq!(rt; tried(alloc, &caller, &free, &TWO, "f", 1), [17, 0, 1]);
    let generated = Config::generated();
    let caller = ContractCaller::new(&generated);
    assert_eq!(rt;
        tried(alloc, &caller, &generated, &TWO, "f", 1000),
        [0, 0, 135]
    );
    assert_eq!(rt;
        tried(alloc, &caller, &generated, &TWO, "g", 1000),
        [14, 0, 133]
    );
    assert_eq!(rt;
        tried(alloc, &caller, &generated, &TWO, "f", 132),
        [17, 0, 132]
    );
}
