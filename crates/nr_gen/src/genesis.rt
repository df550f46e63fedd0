//! The genesis of a generated chain.

ghost use Rattle.std.specs.Prelude.{◌≡◌, ◌<◌, ◌≤◌, ◌++◌, IfOk, OnOk};
ghost use Rattle.nr_triedef.specs.Node.{digest};
ghost use Rattle.nr_gen.specs.Code.{contract_code};
ghost use Rattle.nr_gen.specs.Founding.{contract_entries, first_account, founding_entries, generated_genesis};
ghost use Rattle.nr_gen.specs.Founding.{shard_entries, user_entries};
ghost use Rattle.nr_gen.specs.Names.{boundaries};
ghost use Rattle.nr_gen.specs.Turns.{joined_below};

use crate::code::contract_code;
use crate::names::{contract_id, shard_id, user_id, user_key};
use nr_blocks::{Genesis, GenesisEntry};
use nr_bytes::{Blob, List};
use nr_ids::{AccountId, Hash32};
use nr_layout::Layout;
use nr_records::{AccessKey, Account, Permission, decode, encode};
use nr_triedef::value_hash;
use std::alloc::{AllocError, Global};

/// The users of a shard.
pub(crate) const USERS: u32 = 8;

/// What each account has at first.
const FIRST_AMOUNT: u128 = 1_000_000_000_000_000_000_000_000;

/// The bytes that an account is counted as by itself.
const ACCOUNT_USAGE: u64 = 100;

/// The bytes that an account with a key is counted as: its own, the key's 33, the 9 of its access
/// key, and 40 for the entry.
const USER_USAGE: u64 = ACCOUNT_USAGE + 33 + 9 + 40;

fn first_account(code_hash: Hash32, storage_usage: u64) -> Account
    ensures { result ≡ first_account code_hash storage_usage }
{
    Account {
        amount: FIRST_AMOUNT,
        locked: 0,
        code_hash,
        storage_usage,
    }
}

/// Adds a user and its key.
fn push_user(
    alloc: Global,
    entries: &mut Vec<GenesisEntry>,
    shard: u32,
    user: u32,
) -> Result<(), AllocError>
    requires shard { shard < 16 }
    requires user { user < 8 }
    ensures { OnOk result (entries.new.items ≡ entries.old.items ++ user_entries shard user) }
{
    let account = first_account(Hash32([0; 32]), USER_USAGE);
    entries.push(GenesisEntry::Account(user_id(alloc, shard, user)?, account))?;
    let access = AccessKey {
        nonce: 0,
        permission: Permission::Full,
    };
    let id = user_id(alloc, shard, user)?;
    entries.push(GenesisEntry::Key(id, user_key(shard, user), access))?;
    Ok(())
}

fn push_users(alloc: Global, entries: &mut Vec<GenesisEntry>, shard: u32) -> Result<(), AllocError>
    requires { shard < 16 }
    ensures { OnOk result (entries.new.items ≡ entries.old.items ++ joined_below 8 (user_entries shard)) }
{
    for user in 0..USERS {
        push_user(alloc, entries, shard, user)?;
    }
    Ok(())
}

/// Adds the contract's account and its code, whose hash is this one.
fn push_contract(
    alloc: Global,
    entries: &mut Vec<GenesisEntry>,
    code: &Blob,
    hash: Hash32,
    shard: u32,
) -> Result<(), AllocError>
    requires hash { hash ≡ digest code.now }
    requires shard { shard < 16 }
    ensures { OnOk result (entries.new.items ≡ entries.old.items ++ contract_entries code.now shard) }
{
    let usage = ACCOUNT_USAGE
        .checked_add(code.inner().len() as u64)
        .ok_or(AllocError)?;
    let account = first_account(hash, usage);
    entries.push(GenesisEntry::Account(contract_id(alloc, shard)?, account))?;
    let id = contract_id(alloc, shard)?;
    entries.push(GenesisEntry::Code(id, code.duplicate(alloc)?))?;
    Ok(())
}

/// Adds the entries of a shard.
#[tactic(auto, unfolding(crate::specs::Founding::shard_entries))]
fn push_shard(
    alloc: Global,
    entries: &mut Vec<GenesisEntry>,
    code: &Blob,
    hash: Hash32,
    shard: u32,
) -> Result<(), AllocError>
    requires hash { hash ≡ digest code.now }
    requires shard { shard < 16 }
    ensures { OnOk result (entries.new.items ≡ entries.old.items ++ shard_entries code.now shard) }
{
    push_users(alloc, entries, shard)?;
    push_contract(alloc, entries, code, hash, shard)?;
    Ok(())
}

/// The entries of so many shards.
#[tactic(auto, unfolding(crate::specs::Founding::founding_entries))]
fn entries_of(alloc: Global, code: &Blob, shards: u32) -> Result<List<GenesisEntry>, AllocError>
    requires { shards ≤ 16 }
    ensures { IfOk result (λ entries. entries ≡ founding_entries code.now shards) }
{
    let hash = value_hash(code.inner());
    let mut entries = Vec::new(alloc);
    for shard in 0..shards {
        push_shard(alloc, &mut entries, code, hash, shard)?;
    }
    Ok(List::of(entries))
}

/// The names of the shards from the second one on.
#[tactic(auto, using(crate::proofs::Lists::names_more), unfolding(crate::specs::Names::boundaries))]
fn boundaries_of(alloc: Global, shards: u32) -> Result<List<AccountId>, AllocError>
    requires some { 1 ≤ shards }
    requires few { shards ≤ 16 }
    ensures { IfOk result (λ names. names ≡ boundaries shards) }
{
    let mut names = Vec::new(alloc);
    for below in 0..shards - 1 {
        names.push(shard_id(alloc, below + 1)?)?;
    }
    Ok(List::of(names))
}

/// The layout of so many shards. The boundaries are one, so that nothing but memory can be wanting.
fn layout_of(alloc: Global, shards: u32) -> Result<Layout, AllocError>
    requires some { 1 ≤ shards }
    requires few { shards ≤ 16 }
    ensures { IfOk result (λ layout. layout ≡ boundaries shards) }
{
    let names = boundaries_of(alloc, shards)?;
    let bytes = encode(alloc, &names)?;
    match decode::<Layout>(alloc, bytes.inner()) {
        Ok(layout) => Ok(layout),
        Err(_) => Err(AllocError),
    }
}

/// The genesis for so many shards.
pub(crate) fn genesis_of(alloc: Global, shards: u32) -> Result<Genesis, AllocError>
    requires some { 1 ≤ shards }
    requires few { shards ≤ 16 }
    ensures { IfOk result (λ genesis. genesis ≡ generated_genesis shards) }
{
    let code = contract_code(alloc)?;
    let entries = entries_of(alloc, &code, shards)?;
    let layout = layout_of(alloc, shards)?;
    Ok(Genesis {
        layout,
        entries,
        supply: u128::from(shards) * (9 * FIRST_AMOUNT),
    })
}
