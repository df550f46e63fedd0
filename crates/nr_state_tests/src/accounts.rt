//! Accounts and their keys.

ghost use Rattle.std.specs.Prelude.{◌≡◌, true, IfOk, OnOk};

use crate::setting::{
    KEY, State, account_of, empty_state, has_no_datum, id_of, is_absent, is_account, nonce,
    put_all, put_key, size, state_with, usage,
};
use nr_ids::AccountId;
use std::alloc::{AllocError, Global};
use std::test::Fail;

/// Writes an account, and answers whether it is read back.
fn is_written(state: &mut State, id: &AccountId, amount: u128) -> Result<bool, AllocError>
    requires { state.old.whole ≡ true }
    ensures { OnOk result (state.new.whole ≡ true) }
{
    let account = account_of(amount);
    state.set_account(id, &account)?;
    let is_read = is_account(state, id, &account)?;
    Ok(is_read)
}

/// Takes an account out, and answers whether there is none then.
fn is_taken_out(state: &mut State, id: &AccountId) -> Result<bool, AllocError>
    requires { state.old.whole ≡ true }
{
    state.remove_account(id)?;
    let is_gone = is_absent(state, id)?;
    Ok(is_gone)
}

/// Whether an account is written, written over and taken out.
fn is_kept(state: &mut State, id: &AccountId) -> Result<[bool; 3], AllocError>
    requires { state.old.whole ≡ true }
{
    let first = is_written(state, id, 5)?;
    let second = is_written(state, id, 7)?;
    let last = is_taken_out(state, id)?;
    Ok([first, second, last])
}

#[test]
fn an_account_is_written_and_taken_out(rt: HostRuntime) -> Result<(), Fail> {
    let alloc = rt.alloc();
    let id = id_of(alloc, b"alice")?;
    let mut state = empty_state(alloc);
    assert_eq!(rt; is_kept(&mut state, &id)?, [true; 3]);
    Ok(())
}

/// The owner's usage once a key with this nonce is written.
fn usage_with(state: &mut State, id: &AccountId, nonce: u64) -> Result<Option<u64>, AllocError>
    requires { state.old.whole ≡ true }
    ensures { OnOk result (state.new.whole ≡ true) }
{
    put_key(state, id, nonce)?;
    let count = usage(state, id)?;
    Ok(count)
}

/// The owner's usage with a key, and with another in its place, and the nonce then.
fn counts_with_keys(state: &mut State, id: &AccountId) -> Result<[Option<u64>; 3], AllocError>
    requires { state.old.whole ≡ true }
{
    let first = usage_with(state, id, 7)?;
    let second = usage_with(state, id, 8)?;
    let nonce = nonce(state, id)?;
    Ok([first, second, nonce])
}

#[test]
fn a_full_key_costs_82_bytes(rt: HostRuntime) -> Result<(), Fail> {
    let alloc = rt.alloc();
    let id = id_of(alloc, b"alice")?;
    let mut state = state_with(alloc, &id)?;
    assert_eq!(rt;
        counts_with_keys(&mut state, &id)?,
        [Some(182), Some(182), Some(8)]
    );
    Ok(())
}

/// A state with one account, whose key was written over.
fn state_with_key(alloc: Global, id: &AccountId) -> Result<State, AllocError>
    ensures { IfOk result (λ state. state.whole ≡ true) }
{
    let mut state = state_with(alloc, id)?;
    put_key(&mut state, id, 7)?;
    put_key(&mut state, id, 8)?;
    Ok(state)
}

/// Takes the key out, where its owner stands.
fn take_key(state: &mut State, id: &AccountId) -> Result<bool, AllocError>
    requires { state.old.whole ≡ true }
    ensures { OnOk result (state.new.whole ≡ true) }
{
    if state.account(id)?.is_none() {
        return Err(AllocError);
    }
    let found = state.remove_key(id, &KEY)?;
    Ok(found)
}

/// What an account with no key costs; `None` where it has one.
fn usage_of_no_key(state: &State, id: &AccountId) -> Result<Option<u64>, AllocError> {
    match nonce(state, id)? {
        Some(_) => Ok(None),
        None => usage(state, id),
    }
}

/// What the account costs once its key is taken out; `None` where there was none before, or one
/// could be taken out again.
fn usage_without(state: &mut State, id: &AccountId) -> Result<Option<u64>, AllocError>
    requires { state.old.whole ≡ true }
{
    let was_there = take_key(state, id)?;
    let count = usage_of_no_key(state, id)?;
    let is_there = take_key(state, id)?;
    Ok(if was_there && !is_there { count } else { None })
}

#[test]
fn a_key_goes_once_and_costs_nothing_then(rt: HostRuntime) -> Result<(), Fail> {
    let alloc = rt.alloc();
    let id = id_of(alloc, b"alice")?;
    let mut state = state_with_key(alloc, &id)?;
    assert_eq!(rt; usage_without(&mut state, &id)?, Some(100));
    Ok(())
}

/// Writes an account with a key, code and a datum.
fn put_owner(state: &mut State, id: &AccountId, amount: u128) -> Result<(), AllocError>
    requires { state.old.whole ≡ true }
    ensures { OnOk result (state.new.whole ≡ true) }
{
    state.set_account(id, &account_of(amount))?;
    put_all(state, id)?;
    Ok(())
}

/// A state with two such accounts.
fn two_owners(alloc: Global, first: &AccountId, second: &AccountId) -> Result<State, AllocError>
    ensures { IfOk result (λ state. state.whole ≡ true) }
{
    let mut state = empty_state(alloc);
    put_owner(&mut state, first, 1)?;
    put_owner(&mut state, second, 2)?;
    Ok(state)
}

/// How many entries are left once an account is taken out.
fn size_without(state: &mut State, id: &AccountId) -> Result<usize, AllocError>
    requires { state.old.whole ≡ true }
    ensures { OnOk result (state.new.whole ≡ true) }
{
    state.remove_account(id)?;
    let left = size(state)?;
    Ok(left)
}

/// How many entries there are with both accounts, with the second alone and with none.
fn sizes(state: &mut State, first: &AccountId, second: &AccountId) -> Result<[usize; 3], AllocError>
    requires { state.old.whole ≡ true }
{
    let both = size(state)?;
    let one = size_without(state, first)?;
    let none = size_without(state, second)?;
    Ok([both, one, none])
}

#[test]
fn an_account_goes_with_all_that_it_owns(rt: HostRuntime) -> Result<(), Fail> {
    let alloc = rt.alloc();
    let id = id_of(alloc, b"ab")?;
    let other = id_of(alloc, b"abc")?;
    let mut state = two_owners(alloc, &id, &other)?;
    assert_eq!(rt; sizes(&mut state, &id, &other)?, [8, 4, 0]);
    Ok(())
}

/// The nonce of another's key once an account is taken out; `None` where a datum of the account is
/// left.
fn nonce_without(
    state: &mut State,
    id: &AccountId,
    other: &AccountId,
) -> Result<Option<u64>, AllocError>
    requires { state.old.whole ≡ true }
{
    state.remove_account(id)?;
    if has_no_datum(state, id)? {
        nonce(state, other)
    } else {
        Ok(None)
    }
}

#[test]
fn what_another_account_owns_stays(rt: HostRuntime) -> Result<(), Fail> {
    let alloc = rt.alloc();
    let id = id_of(alloc, b"ab")?;
    let other = id_of(alloc, b"abc")?;
    let mut state = two_owners(alloc, &id, &other)?;
    assert_eq!(rt; nonce_without(&mut state, &id, &other)?, Some(0));
    Ok(())
}
