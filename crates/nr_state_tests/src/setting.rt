//! States with an account, and writes where it stands.

ghost use Rattle.std.specs.Prelude.{◌≡◌, true, [], IfOk, OnOk};
ghost use Rattle.nr_config.specs.Config.{free};

use nr_config::Config;
use nr_ids::{AccountId, Hash32, PublicKey};
use nr_records::{AccessKey, Account, Permission};
use nr_state::ShardState;
use nr_store::PlainStore;
use std::alloc::{AllocError, Global};

pub(crate) type State = ShardState<PlainStore>;

/// The key of the tests, of 32 bytes.
pub(crate) const KEY: PublicKey = PublicKey::Ed25519([1; 32]);

/// The account id of these bytes.
pub(crate) fn id_of(alloc: Global, bytes: &[u8]) -> Result<AccountId, AllocError> {
    let Ok(id) = AccountId::parse(alloc, bytes) else {
        return Err(AllocError);
    };
    Ok(id)
}

/// An account with so much to spend, which is counted as 100 bytes.
pub(crate) fn account_of(amount: u128) -> Account {
    Account {
        amount,
        locked: 0,
        code_hash: Hash32([0; 32]),
        storage_usage: 100,
    }
}

/// An empty state under the configuration `free`.
pub(crate) fn empty_state(alloc: Global) -> State
    ensures whole { result.whole ≡ true }
    ensures config { result.config ≡ free }
    ensures marks { result.marks ≡ [] }
{
    ShardState::new(alloc, PlainStore::new(alloc), &Config::free())
}

/// A state with one account.
pub(crate) fn state_with(alloc: Global, id: &AccountId) -> Result<State, AllocError>
    ensures whole { IfOk result (λ state. state.whole ≡ true) }
    ensures config { IfOk result (λ state. state.config ≡ free) }
    ensures marks { IfOk result (λ state. state.marks ≡ []) }
{
    let mut state = empty_state(alloc);
    state.set_account(id, &account_of(5))?;
    Ok(state)
}

/// How many entries the trie has.
pub(crate) fn size(state: &State) -> Result<usize, AllocError>
    requires { state.now.whole ≡ true }
{
    let entries = state.entries()?;
    Ok(entries.inner().len())
}

/// Whether there is no such account.
pub(crate) fn is_absent(state: &State, id: &AccountId) -> Result<bool, AllocError> {
    let found = state.account(id)?;
    Ok(found.is_none())
}

/// Whether the account is this one in all its fields.
pub(crate) fn is_account(
    state: &State,
    id: &AccountId,
    account: &Account,
) -> Result<bool, AllocError> {
    match state.account(id)? {
        Some(found) => Ok(found == *account),
        None => Ok(false),
    }
}

/// How many bytes an account is counted as.
pub(crate) fn usage(state: &State, id: &AccountId) -> Result<Option<u64>, AllocError> {
    match state.account(id)? {
        Some(account) => Ok(Some(account.storage_usage)),
        None => Ok(None),
    }
}

/// The nonce of an account's key.
pub(crate) fn nonce(state: &State, id: &AccountId) -> Result<Option<u64>, AllocError> {
    match state.key(id, &KEY)? {
        Some(access) => Ok(Some(access.nonce)),
        None => Ok(None),
    }
}

/// Whether an account has no code.
pub(crate) fn has_no_code(state: &State, id: &AccountId) -> Result<bool, AllocError> {
    let found = state.code(id)?;
    Ok(found.is_none())
}

/// Whether an account has this code.
pub(crate) fn has_code(state: &State, id: &AccountId, code: &[u8]) -> Result<bool, AllocError> {
    match state.code(id)? {
        Some(found) => Ok(found == code),
        None => Ok(false),
    }
}

/// Whether an account has no datum under the key `k`.
pub(crate) fn has_no_datum(state: &State, id: &AccountId) -> Result<bool, AllocError> {
    let found = state.datum(id, b"k")?;
    Ok(found.is_none())
}

/// Whether an account has this datum under the key `k`.
pub(crate) fn has_datum(state: &State, id: &AccountId, value: &[u8]) -> Result<bool, AllocError> {
    match state.datum(id, b"k")? {
        Some(found) => Ok(found == value),
        None => Ok(false),
    }
}

/// Writes a full key, where its owner stands.
pub(crate) fn put_key(state: &mut State, id: &AccountId, nonce: u64) -> Result<(), AllocError>
    requires { state.old.whole ≡ true }
    ensures { OnOk result (state.new.whole ≡ true) }
{
    if state.account(id)?.is_none() {
        return Err(AllocError);
    }
    let access = AccessKey {
        nonce,
        permission: Permission::Full,
    };
    state.set_key(id, &KEY, &access)?;
    Ok(())
}

/// Writes a datum under the key `k`, where its owner stands.
pub(crate) fn put_datum(state: &mut State, id: &AccountId, value: &[u8]) -> Result<(), AllocError>
    requires { state.old.whole ≡ true }
    ensures { OnOk result (state.new.whole ≡ true) }
{
    if state.account(id)?.is_none() {
        return Err(AllocError);
    }
    state.set_datum(id, b"k", value)?;
    Ok(())
}

/// Writes code, where its owner stands.
pub(crate) fn put_code(state: &mut State, id: &AccountId, code: &[u8]) -> Result<(), AllocError>
    requires { state.old.whole ≡ true }
    ensures whole { OnOk result (state.new.whole ≡ true) }
    ensures config { OnOk result (state.new.config ≡ state.old.config) }
    ensures marks { OnOk result (state.new.marks ≡ state.old.marks) }
{
    if state.account(id)?.is_none() {
        return Err(AllocError);
    }
    state.set_code(id, code)?;
    Ok(())
}

/// Writes a key, code and a datum of each kind, where their owner stands.
pub(crate) fn put_all(state: &mut State, id: &AccountId) -> Result<(), AllocError>
    requires { state.old.whole ≡ true }
    ensures { OnOk result (state.new.whole ≡ true) }
{
    put_key(state, id, 0)?;
    put_code(state, id, b"abc")?;
    put_datum(state, id, b"v")?;
    Ok(())
}
