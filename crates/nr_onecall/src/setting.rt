//! What a call begins with.

ghost use Rattle.std.specs.Prelude.{◌≡◌, [], true, IfOk, None};
ghost use Rattle.nr_ids.specs.Grammar.{id_fault};
ghost use Rattle.nr_onecall.specs.Setting.{call_request_in, caller, contract, first_account, first_context};
ghost use Rattle.nr_onecall.specs.Setting.{first_world};

use crate::request::CallRequest;
use nr_bytes::{Blob, List, Text};
use nr_config::Config;
use nr_config::entries::{ACCOUNT_BYTES, GAS_PRICE};
use nr_ids::{AccountId, Hash32, Height, IdFault, PublicKey};
use nr_records::Account;
use nr_state::{CallContext, ShardState};
use nr_store::PlainStore;
use std::alloc::{AllocError, Global};

/// What the account has beside the tokens that come with the call.
const FIRST_TOKENS: u128 = 100_000_000_000_000_000_000_000_000;

/// The account id that these bytes are.
fn id_of(alloc: Global, bytes: &[u8]) -> Result<AccountId, AllocError>
    requires { id_fault bytes.now ≡ None }
    ensures { IfOk result (λ id. id ≡ bytes.now) }
{
    match AccountId::parse(alloc, bytes) {
        Ok(id) => Ok(id),
        Err(IdFault::Memory) => Err(AllocError),
        Err(_) => unreachable!(),
    }
}

/// The account whose code is called.
#[tactic(auto, using(crate::proofs::Ids::contract_is_id))]
fn contract(alloc: Global) -> Result<AccountId, AllocError>
    ensures { IfOk result (λ id. id ≡ contract) }
{
    id_of(alloc, b"contract")
}

/// The account that calls it, and signed.
#[tactic(auto, using(crate::proofs::Ids::caller_is_id))]
fn caller(alloc: Global) -> Result<AccountId, AllocError>
    ensures { IfOk result (λ id. id ≡ caller) }
{
    id_of(alloc, b"caller")
}

/// The contract's account before its code is written.
fn first_account(config: &Config, deposit: u128) -> Account
    ensures { result ≡ first_account config.now deposit }
{
    Account {
        amount: FIRST_TOKENS.saturating_add(deposit),
        locked: 0,
        code_hash: Hash32([0; 32]),
        storage_usage: config.entry(ACCOUNT_BYTES),
    }
}

/// A state that has the contract's account alone, with this code.
///
/// # Errors
///
/// Where memory runs out.
#[tactic(auto, using(crate::proofs::Standing::stands))]
pub(crate) fn first_state(
    alloc: Global,
    config: &Config,
    code: &[u8],
    deposit: u128,
) -> Result<ShardState<PlainStore>, AllocError>
    ensures world { IfOk result (λ state. state.world ≡ first_world config.now code.now deposit) }
    ensures whole { IfOk result (λ state. state.whole ≡ true) }
    ensures config { IfOk result (λ state. state.config ≡ config.now) }
    ensures marks { IfOk result (λ state. state.marks ≡ []) }
{
    let id = contract(alloc)?;
    let mut state = ShardState::new(alloc, PlainStore::new(alloc), config);
    state.set_account(&id, &first_account(config, deposit))?;
    state.set_code(&id, code)?;
    Ok(state)
}

/// What the contract is called with.
///
/// # Errors
///
/// Where memory runs out.
pub(crate) fn first_context(
    alloc: Global,
    config: &Config,
    request: &CallRequest<'_>,
) -> Result<CallContext, AllocError>
    ensures { IfOk result (λ context. context ≡ first_context config.now (call_request_in request.now)) }
{
    Ok(CallContext {
        current: contract(alloc)?,
        predecessor: caller(alloc)?,
        signer: caller(alloc)?,
        signer_key: PublicKey::Ed25519([0; 32]),
        method: Text::of(String::from_str(alloc, request.method)?),
        args: Blob::of(Vec::from_slice(alloc, request.args)?),
        deposit: request.deposit,
        gas: request.gas,
        gas_price: u128::from(config.entry(GAS_PRICE)),
        inputs: List::of(Vec::new(alloc)),
        outputs: List::of(Vec::new(alloc)),
        receipt_id: Hash32([0; 32]),
        next_ordinal: 0,
        height: Height(1),
        timestamp: 0,
    })
}
