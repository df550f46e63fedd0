//! Accounts and access keys.

ghost use Rattle.std.specs.Prelude.{◌≡◌, ◌≤◌, true, IfOk, OnOk, OnErr, IsSome, is_some, Some};
ghost use Rattle.std.specs.FinMap as map;
ghost use Rattle.nr_records.specs.AccessKeys.{IsAccessKey};
ghost use Rattle.nr_records.specs.Accounts.{IsAccount};
ghost use Rattle.nr_records.specs.Ids.{IsId};
ghost use Rattle.nr_ids.specs.Keys.{IsKey};
ghost use Rattle.nr_columns.specs.View.{with_columns, without_owner};
ghost use Rattle.nr_state.specs.World.{with_account, with_key};
ghost use Rattle.nr_state.specs.View.{with_world, world_in};
ghost use Rattle.nr_state.specs.Changes.{usage_of_key, set_key, removed_key, without_account};
ghost use Rattle.nr_state.specs.Owners.{IsMoved, with_owner};
ghost use Rattle.nr_state.specs.Usage.{key_usage};

use crate::state::ShardState;
use crate::usage::{moved_owner, spelled_usage};
use nr_columns::{Columns, SpelledKey};
use nr_config::Config;
use nr_ids::{AccountId, PublicKey};
use nr_records::{AccessKey, Account, encode};
use nr_triedef::Store;
use std::alloc::AllocError;

/// What a key costs its owner now; 0 where there is none.
fn usage_of_key<S: Store>(
    columns: &Columns<S>,
    config: &Config,
    id: &AccountId,
    key: &PublicKey,
) -> Result<u64, AllocError>
    ensures { IfOk result (λ usage. usage ≡ usage_of_key config.now (world_in columns.now.columns) id.now key.now) }
{
    match columns.spelled_key(id, key)? {
        Some(access) => spelled_usage(config, key, &access),
        None => Ok(0),
    }
}

/// The owner as it is once the key is written.
fn owner_with_key<S: Store>(
    columns: &Columns<S>,
    config: &Config,
    id: &AccountId,
    key: &PublicKey,
    access: &SpelledKey<'_>,
) -> Result<Account, AllocError>
    ensures { IfOk result (IsMoved (world_in columns.now.columns) id.now
        (usage_of_key config.now (world_in columns.now.columns) id.now key.now)
        (key_usage config.now key.now access.now)) }
{
    let before = usage_of_key(columns, config, id, key)?;
    let after = spelled_usage(config, key, access)?;
    moved_owner(columns, id, before, after)
}

/// Whether the owner stays as it is once the key is written: it stands, the key costs what the one in
/// its place did, and that is counted.
fn keeps_owner<S: Store>(
    columns: &Columns<S>,
    config: &Config,
    id: &AccountId,
    key: &PublicKey,
    access: &SpelledKey<'_>,
) -> Result<bool, AllocError>
    ensures { IfOk result (λ keeps. keeps ≡ true
        → set_key config.now (world_in columns.now.columns) id.now key.now access.now
        ≡ with_key (world_in columns.now.columns) id.now key.now access.now) }
{
    let before = usage_of_key(columns, config, id, key)?;
    let after = spelled_usage(config, key, access)?;
    if before != after {
        return Ok(false);
    }
    let Some(owner) = columns.account(id)? else {
        return Ok(false);
    };
    if owner.storage_usage < after {
        return Ok(false);
    }
    Ok(true)
}

/// Whether what a key costs is counted in its owner's usage.
fn counts_key(
    config: &Config,
    key: &PublicKey,
    access: &SpelledKey<'_>,
    owner: &Account,
) -> Result<bool, AllocError>
    ensures { IfOk result (λ counts. counts ≡ true
        → key_usage config.now key.now access.now ≤ owner.now.storage_usage) }
{
    let usage = spelled_usage(config, key, access)?;
    if owner.storage_usage < usage {
        return Ok(false);
    }
    Ok(true)
}

/// The owner as it is once the key is taken out.
fn owner_without_key<S: Store>(
    columns: &Columns<S>,
    config: &Config,
    id: &AccountId,
    key: &PublicKey,
) -> Result<Account, AllocError>
    ensures { IfOk result (IsMoved (world_in columns.now.columns) id.now
        (usage_of_key config.now (world_in columns.now.columns) id.now key.now) 0) }
{
    let before = usage_of_key(columns, config, id, key)?;
    moved_owner(columns, id, before, 0)
}

fn write_key<S: Store>(
    columns: &mut Columns<S>,
    id: &AccountId,
    key: &PublicKey,
    access: &SpelledKey<'_>,
    owner: &Account,
) -> Result<(), AllocError>
    ensures ok { OnOk result (columns.new ≡ with_columns columns.old
        (with_owner (record columns.old.columns
        { keys = map.insert columns.old.columns.keys (id.now, key.now) access.now }) id.now owner.now)) }
    ensures fits { OnOk result (IsId id.now × (IsAccount owner.now × (IsKey key.now × IsAccessKey access.now))) }
    ensures marks { columns.new.marks ≡ columns.old.marks }
{
    columns.set_spelled_key(id, key, access)?;
    columns.set_account(id, owner)?;
    Ok(())
}

fn take_key<S: Store>(
    columns: &mut Columns<S>,
    id: &AccountId,
    key: &PublicKey,
    owner: &Account,
) -> Result<bool, AllocError>
    ensures found { IfOk result (λ found. found ≡ is_some (map.get columns.old.columns.keys (id.now, key.now))) }
    ensures ok { OnOk result (columns.new ≡ with_columns columns.old
        (with_owner (record columns.old.columns { keys = map.remove columns.old.columns.keys (id.now, key.now) })
        id.now owner.now)) }
    ensures fits { OnOk result (IsId id.now × IsAccount owner.now) }
    ensures marks { columns.new.marks ≡ columns.old.marks }
{
    let found = columns.remove_access_key(id, key)?;
    columns.set_account(id, owner)?;
    Ok(found)
}

fn take_owned<S: Store>(columns: &mut Columns<S>, id: &AccountId) -> Result<(), AllocError>
    ensures ok { OnOk result (columns.new ≡ with_columns columns.old
        (record columns.old.columns {
          keys = without_owner columns.old.columns.keys id.now;
          data_of = without_owner columns.old.columns.data_of id.now;
        })) }
    ensures marks { columns.new.marks ≡ columns.old.marks }
{
    columns.remove_access_keys(id)?;
    columns.remove_data(id)?;
    Ok(())
}

fn take_account<S: Store>(columns: &mut Columns<S>, id: &AccountId) -> Result<(), AllocError>
    ensures ok { OnOk result (columns.new ≡ with_columns columns.old
        (record columns.old.columns {
          accounts = map.remove columns.old.columns.accounts id.now;
          keys = without_owner columns.old.columns.keys id.now;
          code = map.remove columns.old.columns.code id.now;
          data_of = without_owner columns.old.columns.data_of id.now;
        })) }
    ensures marks { columns.new.marks ≡ columns.old.marks }
{
    take_owned(columns, id)?;
    columns.remove_code(id)?;
    columns.remove_account(id)?;
    Ok(())
}

impl<S: Store> ShardState<S> {
    /// An account; `None` where there is none.
    ///
    /// # Errors
    ///
    /// Where memory ran out.
    pub fn account(&self, id: &AccountId) -> Result<Option<Account>, AllocError>
        ensures { IfOk result (λ found. found ≡ map.get self.now.world.accounts id.now) }
    {
        self.columns.account(id)
    }

    /// Writes an account.
    ///
    /// # Errors
    ///
    /// Where memory ran out or a size of the store would be passed. All is then as it was.
    pub fn set_account(&mut self, id: &AccountId, account: &Account) -> Result<(), AllocError>
        requires { self.old.whole ≡ true }
        ensures ok { OnOk result (self.new ≡ with_world self.old (with_account self.old.world id.now account.now)) }
        ensures err { OnErr result (self.new ≡ self.old) }
    {
        self.columns.set_account(id, account)?;
        Ok(())
    }

    /// Takes an account out, with all its keys, code and data. Nothing changes where there is none
    /// of these.
    ///
    /// # Errors
    ///
    /// Where memory ran out. The state can then only be read or dropped.
    pub fn remove_account(&mut self, id: &AccountId) -> Result<(), AllocError>
        requires { self.old.whole ≡ true }
        ensures ok { OnOk result (self.new ≡ with_world self.old (without_account self.old.world id.now)) }
    {
        self.whole = false;
        take_account(&mut self.columns, id)?;
        self.whole = true;
        Ok(())
    }

    /// An access key of an account; `None` where there is none.
    ///
    /// # Errors
    ///
    /// Where memory ran out.
    pub fn key(&self, id: &AccountId, key: &PublicKey) -> Result<Option<AccessKey>, AllocError>
        ensures { IfOk result (λ found. found ≡ map.get self.now.world.keys (id.now, key.now)) }
    {
        self.columns.access_key(id, key)
    }

    /// An access key of an account, lent as it is spelled; `None` where there is none.
    ///
    /// # Errors
    ///
    /// Where memory ran out.
    pub fn spelled_key(
        &self,
        id: &AccountId,
        key: &PublicKey,
    ) -> Result<Option<SpelledKey<'_>>, AllocError>
        ensures { IfOk result (λ found. found ≡ map.get self.now.world.keys (id.now, key.now)) }
    {
        self.columns.spelled_key(id, key)
    }

    /// Writes an access key of an account that stands, and moves the account's `storage_usage` by
    /// what the key costs more or less.
    ///
    /// # Errors
    ///
    /// Where memory ran out, a size of the store would be passed, or the account would be counted
    /// as 2^64 bytes or more. The state can then only be read or dropped.
    pub fn set_key(
        &mut self,
        id: &AccountId,
        key: &PublicKey,
        access: &AccessKey,
    ) -> Result<(), AllocError>
        requires whole { self.old.whole ≡ true }
        requires owner { IsSome (map.get self.old.world.accounts id.now) }
        ensures ok { OnOk result (self.new ≡ with_world self.old
            (set_key self.old.config self.old.world id.now key.now access.now)) }
    {
        let bytes = encode(self.alloc, access)?;
        self.set_spelled_key(id, key, &SpelledKey::of(bytes.inner()))
    }

    /// As [`ShardState::set_key`], of an access key that is spelled already.
    ///
    /// # Errors
    ///
    /// As of [`ShardState::set_key`].
    pub fn set_spelled_key(
        &mut self,
        id: &AccountId,
        key: &PublicKey,
        access: &SpelledKey<'_>,
    ) -> Result<(), AllocError>
        requires whole { self.old.whole ≡ true }
        requires owner { IsSome (map.get self.old.world.accounts id.now) }
        ensures ok { OnOk result (self.new ≡ with_world self.old
            (set_key self.old.config self.old.world id.now key.now access.now)) }
    {
        if self.keeps_owner(id, key, access)? {
            return self.put_spelled_key(id, key, access);
        }
        self.set_counted_key(id, key, access)
    }

    /// As [`ShardState::set_spelled_key`], of a key that costs its owner what the one in its place does. The owner is
    /// told, so neither is looked up.
    pub fn set_used_key(
        &mut self,
        id: &AccountId,
        key: &PublicKey,
        access: &SpelledKey<'_>,
        owner: &Account,
    ) -> Result<(), AllocError>
        requires whole { self.old.whole ≡ true }
        requires stands { map.get self.old.world.accounts id.now ≡ Some owner.now }
        requires same { usage_of_key self.old.config self.old.world id.now key.now
            ≡ key_usage self.old.config key.now access.now }
        ensures ok { OnOk result (self.new ≡ with_world self.old
            (set_key self.old.config self.old.world id.now key.now access.now)) }
    {
        if counts_key(self.config(), key, access, owner)? {
            return self.put_spelled_key(id, key, access);
        }
        self.set_counted_key(id, key, access)
    }

    // Whether the key's owner stays as it is once the key is written.
    fn keeps_owner(
        &self,
        id: &AccountId,
        key: &PublicKey,
        access: &SpelledKey<'_>,
    ) -> Result<bool, AllocError>
        ensures { IfOk result (λ keeps. keeps ≡ true
            → set_key self.now.config self.now.world id.now key.now access.now
            ≡ with_key self.now.world id.now key.now access.now) }
    {
        keeps_owner(&self.columns, &self.config, id, key, access)
    }

    // Writes an access key, and its owner too.
    fn set_counted_key(
        &mut self,
        id: &AccountId,
        key: &PublicKey,
        access: &SpelledKey<'_>,
    ) -> Result<(), AllocError>
        requires whole { self.old.whole ≡ true }
        requires owner { IsSome (map.get self.old.world.accounts id.now) }
        ensures ok { OnOk result (self.new ≡ with_world self.old
            (set_key self.old.config self.old.world id.now key.now access.now)) }
    {
        let owner = owner_with_key(&self.columns, &self.config, id, key, access)?;
        self.whole = false;
        write_key(&mut self.columns, id, key, access, &owner)?;
        self.whole = true;
        Ok(())
    }

    /// Writes an access key and nothing else: its owner stays as it is, and need not stand.
    ///
    /// # Errors
    ///
    /// Where memory ran out or a size of the store would be passed. All is then as it was.
    pub fn put_key(
        &mut self,
        id: &AccountId,
        key: &PublicKey,
        access: &AccessKey,
    ) -> Result<(), AllocError>
        requires { self.old.whole ≡ true }
        ensures ok { OnOk result (self.new ≡ with_world self.old (with_key self.old.world id.now key.now access.now)) }
        ensures err { OnErr result (self.new ≡ self.old) }
    {
        self.columns.set_access_key(id, key, access)?;
        Ok(())
    }

    // As `put_key`, of an access key that is spelled already.
    fn put_spelled_key(
        &mut self,
        id: &AccountId,
        key: &PublicKey,
        access: &SpelledKey<'_>,
    ) -> Result<(), AllocError>
        requires { self.old.whole ≡ true }
        ensures ok { OnOk result (self.new ≡ with_world self.old (with_key self.old.world id.now key.now access.now)) }
        ensures err { OnErr result (self.new ≡ self.old) }
    {
        self.columns.set_spelled_key(id, key, access)?;
        Ok(())
    }

    /// Takes out an access key of an account that stands, and takes what it cost off the account's
    /// `storage_usage`; `false` where it wasn't there.
    ///
    /// # Errors
    ///
    /// Where memory ran out. The state can then only be read or dropped.
    pub fn remove_key(&mut self, id: &AccountId, key: &PublicKey) -> Result<bool, AllocError>
        requires whole { self.old.whole ≡ true }
        requires owner { IsSome (map.get self.old.world.accounts id.now) }
        ensures found { IfOk result (λ found. found ≡ is_some (map.get self.old.world.keys (id.now, key.now))) }
        ensures ok { OnOk result (self.new ≡ with_world self.old
            (removed_key self.old.config self.old.world id.now key.now)) }
    {
        let owner = owner_without_key(&self.columns, &self.config, id, key)?;
        self.whole = false;
        let found = take_key(&mut self.columns, id, key, &owner)?;
        self.whole = true;
        Ok(found)
    }
}
