//! First states of shards, from genesis files.

ghost use Rattle.std.specs.Prelude.{◌≡◌, true, IfOk};

use crate::contents::ABC;
use crate::setting::{State, has_code, has_datum, id_of, is_absent, is_account, nonce, size};
use crate::states::has_root;
use nr_blocks::{fill, read_genesis};
use nr_config::Config;
use nr_ids::{AccountId, Hash32, ShardId};
use nr_records::Account;
use nr_state::ShardState;
use nr_store::PlainStore;
use std::alloc::{AllocError, Global};
use std::test::Fail;

/// An account x.alice with a full key: from a run that another program made.
const ONE_ACCOUNT: [u8; 150] = *b"\
    NRG1\0\0\0\0\x02\0\0\0\0\x07\0\0\0x.alice\x01\0\0\0\0\0\0\0\0\0\0\0\0\0\0\0\x07\0\0\0\0\
    \0\0\0\0\0\0\0\0\0\0\0\0\0\0\0\0\0\0\0\0\0\0\0\0\0\0\0\0\0\0\0\0\0\0\0\0\0\0\0\0\0\0\0\
    \xb6\0\0\0\0\0\0\0\x02\x07\0\0\0x.alice\0\xb2\xb2\xb2\xb2\xb2\xb2\xb2\xb2\xb2\xb2\xb2\
    \xb2\xb2\xb2\xb2\xb2\xb2\xb2\xb2\xb2\xb2\xb2\xb2\xb2\xb2\xb2\xb2\xb2\xb2\xb2\xb2\xb2\0\0\
    \0\0\0\0\0\0\x01\
";

/// The root that the run has after an empty first chunk.
const ITS_ROOT: [u8; 32] = *b"\
    \x80\xcc\x67\xba\x08\x91\x44\x01\x67\x1c\xac\x1d\x30\x0a\xd0\xe7\
    \xcc\xb4\x37\x6d\x7c\x30\x92\x66\x5b\x40\x28\x15\x98\xd3\xcc\xa7\
";

/// Bob is the boundary between two shards. In this order: bob's key, alice's datum, her account and
/// his, her code and her key.
const TWO_SHARDS: [u8; 322] = *b"\
    NRG1\x01\0\0\0\x03\0\0\0bob\x06\0\0\0\
    \x02\x03\0\0\0bob\0\x01\x01\x01\x01\x01\x01\x01\x01\x01\x01\x01\x01\x01\x01\x01\x01\
    \x01\x01\x01\x01\x01\x01\x01\x01\x01\x01\x01\x01\x01\x01\x01\x01\x07\0\0\0\0\0\0\0\x01\
    \x03\x05\0\0\0alice\x01\0\0\0k\x03\0\0\0abc\
    \0\x05\0\0\0alice\x64\0\0\0\0\0\0\0\0\0\0\0\0\0\0\0\x03\0\0\0\0\0\0\0\0\0\0\0\0\0\0\0\
    \xba\x78\x16\xbf\x8f\x01\xcf\xea\x41\x41\x40\xde\x5d\xae\x22\x23\
    \xb0\x03\x61\xa3\x96\x17\x7a\x9c\xb4\x10\xff\x61\xf2\x00\x15\xad\
    \xe5\0\0\0\0\0\0\0\
    \0\x03\0\0\0bob\x14\0\0\0\0\0\0\0\0\0\0\0\0\0\0\0\x03\0\0\0\0\0\0\0\0\0\0\0\0\0\0\0\
    \0\0\0\0\0\0\0\0\0\0\0\0\0\0\0\0\0\0\0\0\0\0\0\0\0\0\0\0\0\0\0\0\
    \xb6\0\0\0\0\0\0\0\
    \x01\x05\0\0\0alice\x03\0\0\0abc\
    \x02\x05\0\0\0alice\0\x01\x01\x01\x01\x01\x01\x01\x01\x01\x01\x01\x01\x01\x01\x01\x01\
    \x01\x01\x01\x01\x01\x01\x01\x01\x01\x01\x01\x01\x01\x01\x01\x01\x05\0\0\0\0\0\0\0\x01\
";

fn state_of(alloc: Global, file: &[u8], shard: u32) -> Result<State, AllocError>
    ensures { IfOk result (λ state. state.whole ≡ true) }
{
    let config = Config::free();
    let Ok(genesis) = read_genesis(alloc, file, &config) else {
        return Err(AllocError);
    };
    let state = fill(
        alloc,
        &genesis,
        ShardId(shard),
        PlainStore::new(alloc),
        &config,
    )?;
    Ok(state)
}

#[test]
fn the_first_state_has_its_root(rt: HostRuntime) -> Result<(), Fail> {
    let mut state = state_of(rt.alloc(), &ONE_ACCOUNT, 0)?;
    assert!(rt; has_root(&mut state, &ITS_ROOT)?);
    Ok(())
}

/// A state that is made of the entries of one.
fn made_again(alloc: Global, state: &State) -> Result<State, AllocError>
    requires { state.now.whole ≡ true }
    ensures { IfOk result (λ state. state.whole ≡ true) }
{
    let entries = state.entries()?;
    let store = PlainStore::new(alloc);
    let state = ShardState::from_entries(alloc, store, &Config::free(), &entries)?;
    Ok(state)
}

#[test]
fn a_state_made_of_its_entries_has_its_root(rt: HostRuntime) -> Result<(), Fail> {
    let alloc = rt.alloc();
    let state = state_of(alloc, &ONE_ACCOUNT, 0)?;
    let mut again = made_again(alloc, &state)?;
    assert!(rt; has_root(&mut again, &ITS_ROOT)?);
    Ok(())
}

fn account_of(amount: u128, code_hash: Hash32, storage_usage: u64) -> Account {
    Account {
        amount,
        locked: 3,
        code_hash,
        storage_usage,
    }
}

fn alice_account() -> Account {
    account_of(100, Hash32(ABC), 229)
}

fn bob_account() -> Account {
    account_of(20, Hash32([0; 32]), 182)
}

/// The state of one of the two shards.
fn shard(alloc: Global, number: u32) -> Result<State, AllocError>
    ensures { IfOk result (λ state. state.whole ≡ true) }
{
    let state = state_of(alloc, &TWO_SHARDS, number)?;
    Ok(state)
}

/// Whether a state has alice's account, code and datum.
fn holds(state: &State, alice: &AccountId) -> Result<[bool; 3], AllocError> {
    let account = is_account(state, alice, &alice_account())?;
    let code = has_code(state, alice, b"abc")?;
    let datum = has_datum(state, alice, b"abc")?;
    Ok([account, code, datum])
}

#[test]
fn a_shard_has_its_accounts_as_the_file_has_them(rt: HostRuntime) -> Result<(), Fail> {
    let alloc = rt.alloc();
    let alice = id_of(alloc, b"alice")?;
    let state = shard(alloc, 0)?;
    assert_eq!(rt; holds(&state, &alice)?, [true; 3]);
    assert_eq!(rt; size(&state)?, 4);
    Ok(())
}

/// The nonce of bob's key; `None` where his account isn't as the file has it.
fn bob_nonce(state: &State, bob: &AccountId) -> Result<Option<u64>, AllocError> {
    if is_account(state, bob, &bob_account())? {
        nonce(state, bob)
    } else {
        Ok(None)
    }
}

#[test]
fn the_next_shard_has_the_others(rt: HostRuntime) -> Result<(), Fail> {
    let alloc = rt.alloc();
    let bob = id_of(alloc, b"bob")?;
    let state = shard(alloc, 1)?;
    assert_eq!(rt; bob_nonce(&state, &bob)?, Some(7));
    assert_eq!(rt; size(&state)?, 2);
    Ok(())
}

/// Whether the account of this name is in no such shard.
fn is_elsewhere(alloc: Global, name: &[u8], number: u32) -> Result<bool, AllocError> {
    let id = id_of(alloc, name)?;
    let state = shard(alloc, number)?;
    let is_absent = is_absent(&state, &id)?;
    Ok(is_absent)
}

#[test]
fn no_shard_has_the_accounts_of_the_other(rt: HostRuntime) -> Result<(), Fail> {
    let alloc = rt.alloc();
    assert!(rt; is_elsewhere(alloc, b"bob", 0)?);
    assert!(rt; is_elsewhere(alloc, b"alice", 1)?);
    Ok(())
}
