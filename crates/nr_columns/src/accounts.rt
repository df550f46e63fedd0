//! Accounts and access keys.

ghost use Rattle.std.specs.Prelude.{◌≡◌, IfOk, OnOk, OnErr, is_some};
ghost use Rattle.std.specs.FinMap as map;
ghost use Rattle.nr_records.specs.Accounts.{IsAccount};
ghost use Rattle.nr_records.specs.Ids.{IsId};
ghost use Rattle.nr_ids.specs.Keys.{IsKey};
ghost use Rattle.nr_records.specs.AccessKeys.{IsAccessKey};
ghost use Rattle.nr_columns.specs.View.{with_columns, without_owner};

use crate::columns::Columns;
use crate::keys;
use crate::lists::remove_each;
use crate::spelled_key::SpelledKey;
use crate::stored::{put, stored};
use nr_ids::{AccountId, PublicKey};
use nr_records::{AccessKey, Account};
use nr_triedef::Store;
use std::alloc::AllocError;

impl<S: Store> Columns<S> {
    /// An account; `None` where there is none.
    ///
    /// # Errors
    ///
    /// Where memory ran out.
    pub fn account(&self, id: &AccountId) -> Result<Option<Account>, AllocError>
        ensures { IfOk result (λ found. found ≡ map.get self.now.columns.accounts id.now) }
    {
        let key = keys::account_slot(id)?;
        stored(self.alloc, &self.store, key.as_slice())
    }

    /// Writes an account.
    ///
    /// # Errors
    ///
    /// Where memory ran out or a size of the store would be passed. All is then as it was.
    pub fn set_account(&mut self, id: &AccountId, account: &Account) -> Result<(), AllocError>
        ensures ok { OnOk result (self.new ≡ with_columns self.old
            (record self.old.columns { accounts = map.insert self.old.columns.accounts id.now account.now })) }
        ensures fits { OnOk result (IsId id.now × IsAccount account.now) }
        ensures err { OnErr result (self.new ≡ self.old) }
    {
        let key = keys::account_slot(id)?;
        put(&mut self.spelled, &mut self.store, key.as_slice(), account)?;
        Ok(())
    }

    /// Takes an account out; `false` where it wasn't there.
    ///
    /// # Errors
    ///
    /// Where memory ran out. All is then as it was.
    pub fn remove_account(&mut self, id: &AccountId) -> Result<bool, AllocError>
        ensures found { IfOk result (λ found. found ≡ is_some (map.get self.old.columns.accounts id.now)) }
        ensures ok { OnOk result (self.new ≡ with_columns self.old
            (record self.old.columns { accounts = map.remove self.old.columns.accounts id.now })) }
        ensures err { OnErr result (self.new ≡ self.old) }
    {
        let key = keys::account_slot(id)?;
        let found = self.store.remove(key.as_slice())?;
        Ok(found)
    }

    /// An access key; `None` where there is none.
    ///
    /// # Errors
    ///
    /// Where memory ran out.
    pub fn access_key(
        &self,
        id: &AccountId,
        key: &PublicKey,
    ) -> Result<Option<AccessKey>, AllocError>
        ensures { IfOk result (λ found. found ≡ map.get self.now.columns.keys (id.now, key.now)) }
    {
        let slot = keys::owner_slot(id, key)?;
        stored(self.alloc, &self.store, slot.as_slice())
    }

    /// An access key, lent as it is spelled; `None` where there is none.
    ///
    /// # Errors
    ///
    /// Where memory ran out.
    pub fn spelled_key(
        &self,
        id: &AccountId,
        key: &PublicKey,
    ) -> Result<Option<SpelledKey<'_>>, AllocError>
        ensures { IfOk result (λ found. found ≡ map.get self.now.columns.keys (id.now, key.now)) }
    {
        let slot = keys::owner_slot(id, key)?;
        match self.store.get(slot.as_slice()) {
            Some(bytes) => Ok(Some(SpelledKey::of(bytes))),
            None => Ok(None),
        }
    }

    /// Writes an access key.
    pub fn set_access_key(
        &mut self,
        id: &AccountId,
        key: &PublicKey,
        access: &AccessKey,
    ) -> Result<(), AllocError>
        ensures ok { OnOk result (self.new ≡ with_columns self.old
            (record self.old.columns { keys = map.insert self.old.columns.keys (id.now, key.now) access.now })) }
        ensures fits { OnOk result (IsId id.now × (IsKey key.now × IsAccessKey access.now)) }
        ensures err { OnErr result (self.new ≡ self.old) }
    {
        let slot = keys::owner_slot(id, key)?;
        put(&mut self.spelled, &mut self.store, slot.as_slice(), access)?;
        Ok(())
    }

    /// Writes an access key that is spelled already.
    ///
    /// # Errors
    ///
    /// Where memory ran out or a size of the store would be passed. All is then as it was.
    pub fn set_spelled_key(
        &mut self,
        id: &AccountId,
        key: &PublicKey,
        access: &SpelledKey<'_>,
    ) -> Result<(), AllocError>
        ensures ok { OnOk result (self.new ≡ with_columns self.old
            (record self.old.columns { keys = map.insert self.old.columns.keys (id.now, key.now) access.now })) }
        ensures fits { OnOk result (IsId id.now × (IsKey key.now × IsAccessKey access.now)) }
        ensures err { OnErr result (self.new ≡ self.old) }
    {
        let slot = keys::owner_slot(id, key)?;
        self.store.set(slot.as_slice(), access.bytes())?;
        Ok(())
    }

    /// Takes an access key out; `false` where it wasn't there.
    ///
    /// # Errors
    ///
    /// Where memory ran out. All is then as it was.
    pub fn remove_access_key(&mut self, id: &AccountId, key: &PublicKey) -> Result<bool, AllocError>
        ensures found { IfOk result (λ found. found ≡ is_some (map.get self.old.columns.keys (id.now, key.now))) }
        ensures ok { OnOk result (self.new ≡ with_columns self.old
            (record self.old.columns { keys = map.remove self.old.columns.keys (id.now, key.now) })) }
        ensures err { OnErr result (self.new ≡ self.old) }
    {
        let slot = keys::owner_slot(id, key)?;
        let found = self.store.remove(slot.as_slice())?;
        Ok(found)
    }

    /// Takes all access keys of an owner out.
    ///
    /// # Errors
    ///
    /// Where memory ran out. Some of them may then be out.
    pub fn remove_access_keys(&mut self, id: &AccountId) -> Result<(), AllocError>
        ensures ok { OnOk result (self.new ≡ with_columns self.old
            (record self.old.columns { keys = without_owner self.old.columns.keys id.now })) }
        ensures marks { self.new.marks ≡ self.old.marks }
    {
        let front = keys::front(self.alloc, keys::ACCESS, id, keys::ACCESS)?;
        let found = self.store.below(front.inner())?;
        remove_each(&mut self.store, found.inner())?;
        Ok(())
    }
}
