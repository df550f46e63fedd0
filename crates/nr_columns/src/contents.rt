//! Code and data.

ghost use Rattle.std.specs.Prelude.{◌≡◌, IfOk, OnOk, OnErr, is_some};
ghost use Rattle.std.specs.Option.{option_copied};
ghost use Rattle.std.specs.FinMap as map;
ghost use Rattle.nr_records.specs.Ids.{IsId};
ghost use Rattle.nr_columns.specs.View.{with_columns, without_owner};

use crate::columns::Columns;
use crate::keys;
use crate::lists::remove_each;
use nr_ids::AccountId;
use nr_triedef::Store;
use std::alloc::AllocError;

impl<S: Store> Columns<S> {
    /// An account's code; `None` where there is none.
    ///
    /// # Errors
    ///
    /// Where memory ran out.
    pub fn code(&self, id: &AccountId) -> Result<Option<&[u8]>, AllocError>
        ensures { IfOk result (λ found. option_copied found ≡ map.get self.now.columns.code id.now) }
    {
        let key = keys::code_slot(id)?;
        Ok(self.store.get(key.as_slice()))
    }

    /// Writes an account's code.
    ///
    /// # Errors
    ///
    /// Where memory ran out or a size of the store would be passed. All is then as it was.
    pub fn set_code(&mut self, id: &AccountId, code: &[u8]) -> Result<(), AllocError>
        ensures ok { OnOk result (self.new ≡ with_columns self.old
            (record self.old.columns { code = map.insert self.old.columns.code id.now code.now })) }
        ensures fits { OnOk result (IsId id.now) }
        ensures err { OnErr result (self.new ≡ self.old) }
    {
        let key = keys::code_slot(id)?;
        self.store.set(key.as_slice(), code)?;
        Ok(())
    }

    /// Takes an account's code out; `false` where it wasn't there.
    ///
    /// # Errors
    ///
    /// Where memory ran out. All is then as it was.
    pub fn remove_code(&mut self, id: &AccountId) -> Result<bool, AllocError>
        ensures found { IfOk result (λ found. found ≡ is_some (map.get self.old.columns.code id.now)) }
        ensures ok { OnOk result (self.new ≡ with_columns self.old
            (record self.old.columns { code = map.remove self.old.columns.code id.now })) }
        ensures err { OnErr result (self.new ≡ self.old) }
    {
        let key = keys::code_slot(id)?;
        let found = self.store.remove(key.as_slice())?;
        Ok(found)
    }

    /// A datum of an account; `None` where there is none.
    ///
    /// # Errors
    ///
    /// Where memory ran out.
    pub fn datum(&self, id: &AccountId, key: &[u8]) -> Result<Option<&[u8]>, AllocError>
        ensures { IfOk result (λ found. option_copied found ≡ map.get self.now.columns.data_of (id.now, key.now)) }
    {
        let slot = keys::pair_key(self.alloc, keys::DATUM, id, key)?;
        Ok(self.store.get(slot.inner()))
    }

    /// Writes a datum of an account.
    ///
    /// # Errors
    ///
    /// Where memory ran out or a size of the store would be passed. All is then as it was.
    pub fn set_datum(&mut self, id: &AccountId, key: &[u8], value: &[u8]) -> Result<(), AllocError>
        ensures ok { OnOk result (self.new ≡ with_columns self.old
            (record self.old.columns { data_of = map.insert self.old.columns.data_of (id.now, key.now) value.now })) }
        ensures fits { OnOk result (IsId id.now) }
        ensures err { OnErr result (self.new ≡ self.old) }
    {
        let slot = keys::pair_key(self.alloc, keys::DATUM, id, key)?;
        self.store.set(slot.inner(), value)?;
        Ok(())
    }

    /// Takes a datum out; `false` where it wasn't there.
    ///
    /// # Errors
    ///
    /// Where memory ran out. All is then as it was.
    pub fn remove_datum(&mut self, id: &AccountId, key: &[u8]) -> Result<bool, AllocError>
        ensures found { IfOk result (λ found. found ≡ is_some (map.get self.old.columns.data_of (id.now, key.now))) }
        ensures ok { OnOk result (self.new ≡ with_columns self.old
            (record self.old.columns { data_of = map.remove self.old.columns.data_of (id.now, key.now) })) }
        ensures err { OnErr result (self.new ≡ self.old) }
    {
        let slot = keys::pair_key(self.alloc, keys::DATUM, id, key)?;
        let found = self.store.remove(slot.inner())?;
        Ok(found)
    }

    /// Takes all data of an owner out.
    ///
    /// # Errors
    ///
    /// Where memory ran out. Some of them may then be out.
    pub fn remove_data(&mut self, id: &AccountId) -> Result<(), AllocError>
        ensures ok { OnOk result (self.new ≡ with_columns self.old
            (record self.old.columns { data_of = without_owner self.old.columns.data_of id.now })) }
        ensures marks { self.new.marks ≡ self.old.marks }
    {
        let front = keys::front(self.alloc, keys::DATUM, id, b',')?;
        let found = self.store.below(front.inner())?;
        remove_each(&mut self.store, found.inner())?;
        Ok(())
    }
}
