//! Code and data.

ghost use Rattle.std.specs.Prelude.{◌≡◌, true, IfOk, OnOk, OnErr, IsSome, is_some};
ghost use Rattle.std.specs.Option.{option_copied};
ghost use Rattle.std.specs.FinMap as map;
ghost use Rattle.nr_records.specs.Accounts.{IsAccount};
ghost use Rattle.nr_records.specs.Ids.{IsId};
ghost use Rattle.nr_columns.specs.View.{with_columns};
ghost use Rattle.nr_state.specs.View.{with_world, world_in};
ghost use Rattle.nr_state.specs.Changes.{usage_of_code, set_code, usage_of_datum, set_datum, removed_datum};
ghost use Rattle.nr_state.specs.Owners.{IsMoved, HasCode, with_owner};
ghost use Rattle.nr_state.specs.Usage.{datum_usage};
ghost use Rattle.nr_state.specs.World.{with_code_bytes, with_datum};

use crate::state::ShardState;
use crate::usage::{code_usage, datum_usage, moved_owner};
use nr_columns::Columns;
use nr_config::Config;
use nr_ids::{AccountId, Hash32};
use nr_records::Account;
use nr_triedef::Store;
use sha2::{Digest, Sha256};
use std::alloc::AllocError;

/// What an account's code costs it now; 0 where there is none.
fn usage_of_code<S: Store>(columns: &Columns<S>, id: &AccountId) -> Result<u64, AllocError>
    ensures { IfOk result (λ usage. usage ≡ usage_of_code (world_in columns.now.columns) id.now) }
{
    match columns.code(id)? {
        Some(code) => Ok(code_usage(code)),
        None => Ok(0),
    }
}

/// The account as it is once the code is written.
fn owner_with_code<S: Store>(
    columns: &Columns<S>,
    id: &AccountId,
    code: &[u8],
) -> Result<Account, AllocError>
    ensures { IfOk result (HasCode (world_in columns.now.columns) id.now code.now) }
{
    let before = usage_of_code(columns, id)?;
    let mut owner = moved_owner(columns, id, before, code_usage(code))?;
    owner.code_hash = Hash32(Sha256::digest(code));
    Ok(owner)
}

fn write_code<S: Store>(
    columns: &mut Columns<S>,
    id: &AccountId,
    code: &[u8],
    owner: &Account,
) -> Result<(), AllocError>
    ensures ok { OnOk result (columns.new ≡ with_columns columns.old
        (with_owner (record columns.old.columns { code = map.insert columns.old.columns.code id.now code.now }) id.now
        owner.now)) }
    ensures fits { OnOk result (IsId id.now × IsAccount owner.now) }
    ensures marks { columns.new.marks ≡ columns.old.marks }
{
    columns.set_code(id, code)?;
    columns.set_account(id, owner)?;
    Ok(())
}

/// What a datum costs its owner now; 0 where there is none.
fn usage_of_datum<S: Store>(
    columns: &Columns<S>,
    config: &Config,
    id: &AccountId,
    key: &[u8],
) -> Result<u64, AllocError>
    ensures { IfOk result (λ usage. usage ≡ usage_of_datum config.now (world_in columns.now.columns) id.now key.now) }
{
    match columns.datum(id, key)? {
        Some(value) => datum_usage(config, key, value),
        None => Ok(0),
    }
}

/// The owner as it is once the datum is written.
fn owner_with_datum<S: Store>(
    columns: &Columns<S>,
    config: &Config,
    id: &AccountId,
    key: &[u8],
    value: &[u8],
) -> Result<Account, AllocError>
    ensures { IfOk result (IsMoved (world_in columns.now.columns) id.now
        (usage_of_datum config.now (world_in columns.now.columns) id.now key.now)
        (datum_usage config.now key.now value.now)) }
{
    let before = usage_of_datum(columns, config, id, key)?;
    let after = datum_usage(config, key, value)?;
    moved_owner(columns, id, before, after)
}

/// The owner as it is once the datum is taken out.
fn owner_without_datum<S: Store>(
    columns: &Columns<S>,
    config: &Config,
    id: &AccountId,
    key: &[u8],
) -> Result<Account, AllocError>
    ensures { IfOk result (IsMoved (world_in columns.now.columns) id.now
        (usage_of_datum config.now (world_in columns.now.columns) id.now key.now) 0) }
{
    let before = usage_of_datum(columns, config, id, key)?;
    moved_owner(columns, id, before, 0)
}

fn write_datum<S: Store>(
    columns: &mut Columns<S>,
    id: &AccountId,
    key: &[u8],
    value: &[u8],
    owner: &Account,
) -> Result<(), AllocError>
    ensures ok { OnOk result (columns.new ≡ with_columns columns.old
        (with_owner (record columns.old.columns {
          data_of = map.insert columns.old.columns.data_of
              (id.now, key.now) value.now;
        }) id.now owner.now)) }
    ensures fits { OnOk result (IsId id.now × IsAccount owner.now) }
    ensures marks { columns.new.marks ≡ columns.old.marks }
{
    columns.set_datum(id, key, value)?;
    columns.set_account(id, owner)?;
    Ok(())
}

fn take_datum<S: Store>(
    columns: &mut Columns<S>,
    id: &AccountId,
    key: &[u8],
    owner: &Account,
) -> Result<bool, AllocError>
    ensures found { IfOk result (λ found. found ≡ is_some (map.get columns.old.columns.data_of (id.now, key.now))) }
    ensures ok { OnOk result (columns.new ≡ with_columns columns.old
        (with_owner (record columns.old.columns {
          data_of = map.remove columns.old.columns.data_of
              (id.now, key.now);
        }) id.now owner.now)) }
    ensures fits { OnOk result (IsId id.now × IsAccount owner.now) }
    ensures marks { columns.new.marks ≡ columns.old.marks }
{
    let found = columns.remove_datum(id, key)?;
    columns.set_account(id, owner)?;
    Ok(found)
}

impl<S: Store> ShardState<S> {
    /// An account's code; `None` where there is none.
    ///
    /// # Errors
    ///
    /// Where memory ran out.
    pub fn code(&self, id: &AccountId) -> Result<Option<&[u8]>, AllocError>
        ensures { IfOk result (λ found. option_copied found ≡ map.get self.now.world.code id.now) }
    {
        self.columns.code(id)
    }

    /// Writes the code of an account that stands, sets the account's `code_hash` to the code's SHA-256
    /// and moves its `storage_usage` by the difference in length.
    ///
    /// # Errors
    ///
    /// Where memory ran out, a size of the store would be passed, or the account would be counted
    /// as 2^64 bytes or more. The state can then only be read or dropped.
    #[tactic(auto, using(crate::proofs::CodeWrites::code_set))]
    pub fn set_code(&mut self, id: &AccountId, code: &[u8]) -> Result<(), AllocError>
        requires whole { self.old.whole ≡ true }
        requires owner { IsSome (map.get self.old.world.accounts id.now) }
        ensures ok { OnOk result (self.new ≡ with_world self.old (set_code self.old.world id.now code.now)) }
    {
        let owner = owner_with_code(&self.columns, id, code)?;
        self.whole = false;
        write_code(&mut self.columns, id, code, &owner)?;
        self.whole = true;
        Ok(())
    }

    /// Writes code and nothing else: its owner stays as it is, and need not stand.
    ///
    /// # Errors
    ///
    /// Where memory ran out or a size of the store would be passed. All is then as it was.
    pub fn put_code(&mut self, id: &AccountId, code: &[u8]) -> Result<(), AllocError>
        requires { self.old.whole ≡ true }
        ensures ok { OnOk result (self.new ≡ with_world self.old (with_code_bytes self.old.world id.now code.now)) }
        ensures err { OnErr result (self.new ≡ self.old) }
    {
        self.columns.set_code(id, code)?;
        Ok(())
    }

    /// A datum of an account; `None` where there is none.
    ///
    /// # Errors
    ///
    /// Where memory ran out.
    pub fn datum(&self, id: &AccountId, key: &[u8]) -> Result<Option<&[u8]>, AllocError>
        ensures { IfOk result (λ found. option_copied found ≡ map.get self.now.world.data_of (id.now, key.now)) }
    {
        self.columns.datum(id, key)
    }

    /// Writes a datum of an account that stands, and moves the account's `storage_usage` by what the
    /// datum costs more or less.
    ///
    /// # Errors
    ///
    /// Where memory ran out, a size of the store would be passed, or the account would be counted
    /// as 2^64 bytes or more. The state can then only be read or dropped.
    pub fn set_datum(&mut self, id: &AccountId, key: &[u8], value: &[u8]) -> Result<(), AllocError>
        requires whole { self.old.whole ≡ true }
        requires owner { IsSome (map.get self.old.world.accounts id.now) }
        ensures ok { OnOk result (self.new ≡ with_world self.old
            (set_datum self.old.config self.old.world id.now key.now value.now)) }
    {
        let owner = owner_with_datum(&self.columns, &self.config, id, key, value)?;
        self.whole = false;
        write_datum(&mut self.columns, id, key, value, &owner)?;
        self.whole = true;
        Ok(())
    }

    /// Writes a datum and nothing else: its owner stays as it is, and need not stand.
    ///
    /// # Errors
    ///
    /// Where memory ran out or a size of the store would be passed. All is then as it was.
    pub fn put_datum(&mut self, id: &AccountId, key: &[u8], value: &[u8]) -> Result<(), AllocError>
        requires { self.old.whole ≡ true }
        ensures ok { OnOk result (self.new ≡ with_world self.old
            (with_datum self.old.world id.now key.now value.now)) }
        ensures err { OnErr result (self.new ≡ self.old) }
    {
        self.columns.set_datum(id, key, value)?;
        Ok(())
    }

    /// Takes out a datum of an account that stands, and takes what it cost off the account's
    /// `storage_usage`; `false` where it wasn't there.
    ///
    /// # Errors
    ///
    /// Where memory ran out. The state can then only be read or dropped.
    pub fn remove_datum(&mut self, id: &AccountId, key: &[u8]) -> Result<bool, AllocError>
        requires whole { self.old.whole ≡ true }
        requires owner { IsSome (map.get self.old.world.accounts id.now) }
        ensures found { IfOk result (λ found. found ≡ is_some (map.get self.old.world.data_of (id.now, key.now))) }
        ensures ok { OnOk result (self.new ≡ with_world self.old
            (removed_datum self.old.config self.old.world id.now key.now)) }
    {
        let owner = owner_without_datum(&self.columns, &self.config, id, key)?;
        self.whole = false;
        let found = take_datum(&mut self.columns, id, key, &owner)?;
        self.whole = true;
        Ok(found)
    }
}
