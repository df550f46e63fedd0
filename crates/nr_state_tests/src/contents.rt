//! Code and data of accounts.

ghost use Rattle.std.specs.Prelude.{◌≡◌, true, IfOk, OnOk};

use crate::setting::{
    State, has_code, has_datum, has_no_code, has_no_datum, id_of, put_code, put_datum, state_with,
    usage,
};
use nr_ids::{AccountId, Hash32};
use std::alloc::{AllocError, Global};
use std::test::Fail;

/// The SHA-256 of `abc`, of FIPS 180-4's examples.
pub(crate) const ABC: [u8; 32] = *b"\
    \xba\x78\x16\xbf\x8f\x01\xcf\xea\x41\x41\x40\xde\x5d\xae\x22\x23\
    \xb0\x03\x61\xa3\x96\x17\x7a\x9c\xb4\x10\xff\x61\xf2\x00\x15\xad\
";

/// Whether the hash of an account's code is that of `abc`.
fn has_hash(state: &State, id: &AccountId) -> Result<bool, AllocError> {
    match state.account(id)? {
        Some(account) => Ok(account.code_hash == Hash32(ABC)),
        None => Ok(false),
    }
}

/// What the account costs once longer code is written, and then `abc`; `None` where it had code
/// before.
fn usage_with_code(state: &mut State, id: &AccountId) -> Result<Option<u64>, AllocError>
    requires { state.old.whole ≡ true }
{
    if !has_no_code(state, id)? {
        return Ok(None);
    }
    put_code(state, id, b"longer")?;
    put_code(state, id, b"abc")?;
    let count = usage(state, id)?;
    Ok(count)
}

/// Whether the account has the code `abc`, and its hash.
fn has_code_and_hash(state: &State, id: &AccountId) -> Result<[bool; 2], AllocError> {
    let has_code = has_code(state, id, b"abc")?;
    let has_hash = has_hash(state, id)?;
    Ok([has_code, has_hash])
}

#[test]
fn code_has_a_hash_and_costs_its_bytes(rt: HostRuntime) -> Result<(), Fail> {
    let alloc = rt.alloc();
    let id = id_of(alloc, b"alice")?;
    let mut state = state_with(alloc, &id)?;
    assert_eq!(rt; usage_with_code(&mut state, &id)?, Some(103));
    assert_eq!(rt; has_code_and_hash(&state, &id)?, [true; 2]);
    Ok(())
}

/// The owner's usage once a datum is written.
fn usage_with(state: &mut State, id: &AccountId, value: &[u8]) -> Result<Option<u64>, AllocError>
    requires { state.old.whole ≡ true }
    ensures { OnOk result (state.new.whole ≡ true) }
{
    put_datum(state, id, value)?;
    let count = usage(state, id)?;
    Ok(count)
}

/// The owner's usage with a datum, and with another in its place.
fn usages_with_data(state: &mut State, id: &AccountId) -> Result<[Option<u64>; 2], AllocError>
    requires { state.old.whole ≡ true }
{
    let first = usage_with(state, id, b"abc")?;
    let second = usage_with(state, id, b"hello")?;
    Ok([first, second])
}

#[test]
fn a_datum_costs_its_bytes_and_40(rt: HostRuntime) -> Result<(), Fail> {
    let alloc = rt.alloc();
    let id = id_of(alloc, b"alice")?;
    let mut state = state_with(alloc, &id)?;
    assert_eq!(rt; usages_with_data(&mut state, &id)?, [Some(144), Some(146)]);
    assert!(rt; has_datum(&state, &id, b"hello")?);
    Ok(())
}

/// A state with one account, whose datum was written over.
fn state_with_datum(alloc: Global, id: &AccountId) -> Result<State, AllocError>
    ensures { IfOk result (λ state. state.whole ≡ true) }
{
    let mut state = state_with(alloc, id)?;
    put_datum(&mut state, id, b"abc")?;
    put_datum(&mut state, id, b"hello")?;
    Ok(state)
}

/// Takes the datum out, where its owner stands.
fn take_datum(state: &mut State, id: &AccountId) -> Result<bool, AllocError>
    requires { state.old.whole ≡ true }
    ensures { OnOk result (state.new.whole ≡ true) }
{
    if state.account(id)?.is_none() {
        return Err(AllocError);
    }
    let found = state.remove_datum(id, b"k")?;
    Ok(found)
}

/// What an account with no datum costs; `None` where it has one.
fn usage_of_no_datum(state: &State, id: &AccountId) -> Result<Option<u64>, AllocError> {
    if has_no_datum(state, id)? {
        usage(state, id)
    } else {
        Ok(None)
    }
}

/// What the account costs once its datum is taken out; `None` where there was none before, or one
/// could be taken out again.
fn usage_without(state: &mut State, id: &AccountId) -> Result<Option<u64>, AllocError>
    requires { state.old.whole ≡ true }
{
    let was_there = take_datum(state, id)?;
    let count = usage_of_no_datum(state, id)?;
    let is_there = take_datum(state, id)?;
    Ok(if was_there && !is_there { count } else { None })
}

#[test]
fn a_datum_goes_once_and_costs_nothing_then(rt: HostRuntime) -> Result<(), Fail> {
    let alloc = rt.alloc();
    let id = id_of(alloc, b"alice")?;
    let mut state = state_with_datum(alloc, &id)?;
    assert_eq!(rt; usage_without(&mut state, &id)?, Some(100));
    Ok(())
}
