//! Checkpoints, entries and roots.

ghost use Rattle.std.specs.Prelude.{◌≡◌, ◌<◌, true, [], OnOk};

use crate::setting::{State, account_of, empty_state, id_of, put_all, state_with, usage};
use nr_columns::Entry;
use nr_config::Config;
use nr_ids::AccountId;
use nr_records::Account;
use nr_state::ShardState;
use nr_triedef::{Steps, Store, bytes_of};
use std::alloc::AllocError;
use std::marker::Brand;
use std::sync::ledger::{Blank, Ledger};
use std::test::Fail;

/// An account that is counted as 300 bytes.
fn larger() -> Account {
    let mut account = account_of(9);
    account.storage_usage = 300;
    account
}

/// Makes room for a checkpoint, makes it, writes the account and goes back.
fn change_and_back(state: &mut State, id: &AccountId) -> Result<Option<u64>, AllocError>
    requires whole { state.old.whole ≡ true }
    requires marks { state.old.marks ≡ [] }
    ensures whole { OnOk result (state.new.whole ≡ true) }
    ensures marks { OnOk result (state.new.marks ≡ []) }
    ensures spare { OnOk result (0 < state.new.spare) }
{
    state.reserve_marks(1)?;
    state.mark();
    state.set_account(id, &larger())?;
    state.back();
    let before = usage(state, id)?;
    Ok(before)
}

/// Makes a checkpoint, writes the account and keeps it.
fn change_and_keep(state: &mut State, id: &AccountId) -> Result<Option<u64>, AllocError>
    requires whole { state.old.whole ≡ true }
    requires spare { 0 < state.old.spare }
{
    state.mark();
    state.set_account(id, &larger())?;
    state.keep();
    let after = usage(state, id)?;
    Ok(after)
}

/// What the account costs after each of the two.
fn usages(state: &mut State, id: &AccountId) -> Result<[Option<u64>; 2], AllocError>
    requires whole { state.old.whole ≡ true }
    requires marks { state.old.marks ≡ [] }
{
    let back = change_and_back(state, id)?;
    let kept = change_and_keep(state, id)?;
    Ok([back, kept])
}

#[test]
fn checkpoints(rt: HostRuntime) -> Result<(), Fail> {
    let alloc = rt.alloc();
    let id = id_of(alloc, b"alice")?;
    let mut state = state_with(alloc, &id)?;
    assert_eq!(rt; usages(&mut state, &id)?, [Some(100), Some(300)]);
    Ok(())
}

fn counted_root<S: Store, L: Ledger>(
    state: &mut ShardState<S>,
    blank: Blank,
) -> Result<[u8; 32], AllocError>
    requires name { blank.name ≡ L.name }
    requires parts { blank.parts ≡ L.parts }
    requires some { 0 < blank.parts }
    requires whole { state.old.whole ≡ true }
    ensures { state.new ≡ state.old }
{
    let mut steps = Steps::<L>::new(blank);
    let root = state.root(&mut steps)?;
    Ok(bytes_of(&root))
}

fn root<S: Store>(state: &mut ShardState<S>) -> Result<[u8; 32], AllocError>
    requires { state.old.whole ≡ true }
    ensures { state.new ≡ state.old }
{
    counted_root::<S, Brand>(state, Blank::new(1))
}

/// Whether these bytes are the state's root.
pub(crate) fn has_root(state: &mut State, bytes: &[u8; 32]) -> Result<bool, AllocError>
    requires { state.old.whole ≡ true }
    ensures { state.new ≡ state.old }
{
    let root = root(state)?;
    Ok(root == *bytes)
}

fn is_free(state: &State) -> bool {
    *state.config() == Config::free()
}

/// Whether the root is zeros.
fn has_no_root(state: &mut State) -> Result<bool, AllocError>
    requires { state.old.whole ≡ true }
    ensures { state.new ≡ state.old }
{
    has_root(state, &[0; 32])
}

/// Whether the root is zeros before an account is written, while it stands, and once it is taken
/// out.
fn are_zeros(state: &mut State, id: &AccountId) -> Result<[bool; 3], AllocError>
    requires { state.old.whole ≡ true }
{
    let before = has_no_root(state)?;
    state.set_account(id, &account_of(1))?;
    let with = has_no_root(state)?;
    state.remove_account(id)?;
    let without = has_no_root(state)?;
    Ok([before, with, without])
}

#[test]
fn an_empty_state_has_the_root_of_nothing(rt: HostRuntime) -> Result<(), Fail> {
    let alloc = rt.alloc();
    let id = id_of(alloc, b"alice")?;
    let mut state = empty_state(alloc);
    assert!(rt; is_free(&state));
    assert_eq!(rt; are_zeros(&mut state, &id)?, [true, false, true]);
    Ok(())
}

/// Whether there are four entries whose keys start with these bytes, in order.
fn start_with(entries: &[Entry], starts: [&[u8]; 4]) -> bool {
    for (entry, start) in entries.iter().zip(starts) {
        if !entry.key.inner().starts_with(start) {
            return false;
        }
    }
    entries.len() == 4
}

/// A state's account with all that it owns, as entries.
fn are_in_order(state: &mut State, id: &AccountId) -> Result<bool, AllocError>
    requires { state.old.whole ≡ true }
{
    put_all(state, id)?;
    let entries = state.entries()?;
    let starts: [&[u8]; 4] = [b"\0ab", b"\x01ab", b"\x02ab\x02\0\x01", b"\x09ab,k"];
    Ok(start_with(entries.inner(), starts))
}

#[test]
fn entries_stand_in_the_order_of_their_keys(rt: HostRuntime) -> Result<(), Fail> {
    let alloc = rt.alloc();
    let id = id_of(alloc, b"ab")?;
    let mut state = state_with(alloc, &id)?;
    assert!(rt; are_in_order(&mut state, &id)?);
    Ok(())
}
