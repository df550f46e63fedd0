//! Data that came, and data that receipts wait for.

ghost use Rattle.std.specs.Prelude.{◌≡◌, IfOk, OnOk, OnErr, is_some};
ghost use Rattle.std.specs.FinMap as map;
ghost use Rattle.nr_bytes.specs.Spelling.{IsCounted};
ghost use Rattle.nr_records.specs.Options.{IsOption};
ghost use Rattle.nr_records.specs.Ids.{IsId};
ghost use Rattle.nr_ids.specs.Keys.{IsHash};
ghost use Rattle.nr_columns.specs.View.{with_columns};

use crate::columns::Columns;
use crate::keys;
use crate::numbers::{put_count, stored_count};
use crate::stored::{put, stored};
use nr_bytes::Blob;
use nr_ids::{AccountId, Hash32};
use nr_triedef::Store;
use std::alloc::AllocError;

impl<S: Store> Columns<S> {
    /// A datum that a receiver has received; `None` where there is none.
    ///
    /// # Errors
    ///
    /// Where memory ran out.
    pub fn received(
        &self,
        receiver: &AccountId,
        data_id: &Hash32,
    ) -> Result<Option<Option<Blob>>, AllocError>
        ensures { IfOk result (λ found. found ≡ map.get self.now.columns.received (receiver.now, data_id.now.0)) }
    {
        let key = keys::pair_slot(keys::RECEIVED, receiver, &data_id.0)?;
        stored(self.alloc, &self.store, key.as_slice())
    }

    /// Writes a received datum.
    ///
    /// # Errors
    ///
    /// Where memory ran out or a size of the store would be passed. All is then as it was.
    pub fn set_received(
        &mut self,
        receiver: &AccountId,
        data_id: &Hash32,
        bytes: &Option<Blob>,
    ) -> Result<(), AllocError>
        ensures ok { OnOk result (self.new ≡ with_columns self.old
            (record self.old.columns {
              received = map.insert self.old.columns.received
                  (receiver.now, data_id.now.0) bytes.now;
            })) }
        ensures fits { OnOk result (IsId receiver.now × (IsHash data_id.now × IsOption IsCounted bytes.now)) }
        ensures err { OnErr result (self.new ≡ self.old) }
    {
        let key = keys::pair_slot(keys::RECEIVED, receiver, &data_id.0)?;
        put(&mut self.spelled, &mut self.store, key.as_slice(), bytes)?;
        Ok(())
    }

    /// Takes a received datum out; `false` where it wasn't there.
    ///
    /// # Errors
    ///
    /// Where memory ran out. All is then as it was.
    pub fn remove_received(
        &mut self,
        receiver: &AccountId,
        data_id: &Hash32,
    ) -> Result<bool, AllocError>
        ensures found { IfOk result (λ found. found
            ≡ is_some (map.get self.old.columns.received (receiver.now, data_id.now.0))) }
        ensures ok { OnOk result (self.new ≡ with_columns self.old
            (record self.old.columns {
              received = map.remove self.old.columns.received
                  (receiver.now, data_id.now.0);
            })) }
        ensures err { OnErr result (self.new ≡ self.old) }
    {
        let key = keys::pair_slot(keys::RECEIVED, receiver, &data_id.0)?;
        let found = self.store.remove(key.as_slice())?;
        Ok(found)
    }

    /// The id of the postponed receipt that waits for a datum; `None` where there is none.
    ///
    /// # Errors
    ///
    /// Where memory ran out.
    pub fn awaited(
        &self,
        receiver: &AccountId,
        data_id: &Hash32,
    ) -> Result<Option<Hash32>, AllocError>
        ensures { IfOk result (λ found. found ≡ map.get self.now.columns.awaited (receiver.now, data_id.now.0)) }
    {
        let key = keys::pair_slot(keys::AWAITED, receiver, &data_id.0)?;
        stored(self.alloc, &self.store, key.as_slice())
    }

    /// Writes which postponed receipt waits for a datum.
    ///
    /// # Errors
    ///
    /// Where memory ran out or a size of the store would be passed. All is then as it was.
    pub fn set_awaited(
        &mut self,
        receiver: &AccountId,
        data_id: &Hash32,
        receipt_id: &Hash32,
    ) -> Result<(), AllocError>
        ensures ok { OnOk result (self.new ≡ with_columns self.old
            (record self.old.columns {
              awaited = map.insert self.old.columns.awaited
                  (receiver.now, data_id.now.0) receipt_id.now;
            })) }
        ensures err { OnErr result (self.new ≡ self.old) }
    {
        let key = keys::pair_slot(keys::AWAITED, receiver, &data_id.0)?;
        put(
            &mut self.spelled,
            &mut self.store,
            key.as_slice(),
            receipt_id,
        )?;
        Ok(())
    }

    /// Takes out which postponed receipt waits for a datum; `false` where it wasn't there.
    ///
    /// # Errors
    ///
    /// Where memory ran out. All is then as it was.
    pub fn remove_awaited(
        &mut self,
        receiver: &AccountId,
        data_id: &Hash32,
    ) -> Result<bool, AllocError>
        ensures found { IfOk result (λ found. found
            ≡ is_some (map.get self.old.columns.awaited (receiver.now, data_id.now.0))) }
        ensures ok { OnOk result (self.new ≡ with_columns self.old
            (record self.old.columns { awaited = map.remove self.old.columns.awaited (receiver.now, data_id.now.0) })) }
        ensures err { OnErr result (self.new ≡ self.old) }
    {
        let key = keys::pair_slot(keys::AWAITED, receiver, &data_id.0)?;
        let found = self.store.remove(key.as_slice())?;
        Ok(found)
    }

    /// How many inputs a postponed receipt lacks; `None` where there is none.
    ///
    /// # Errors
    ///
    /// Where memory ran out.
    pub fn missing(
        &self,
        receiver: &AccountId,
        receipt_id: &Hash32,
    ) -> Result<Option<u32>, AllocError>
        ensures { IfOk result (λ found. found ≡ map.get self.now.columns.missing (receiver.now, receipt_id.now.0)) }
    {
        let key = keys::pair_slot(keys::MISSING, receiver, &receipt_id.0)?;
        Ok(stored_count(&self.store, key.as_slice()))
    }

    /// Writes how many inputs a postponed receipt lacks.
    ///
    /// # Errors
    ///
    /// Where memory ran out or a size of the store would be passed. All is then as it was.
    pub fn set_missing(
        &mut self,
        receiver: &AccountId,
        receipt_id: &Hash32,
        count: u32,
    ) -> Result<(), AllocError>
        ensures ok { OnOk result (self.new ≡ with_columns self.old
            (record self.old.columns {
              missing = map.insert self.old.columns.missing
                  (receiver.now, receipt_id.now.0) count;
            })) }
        ensures err { OnErr result (self.new ≡ self.old) }
    {
        let key = keys::pair_slot(keys::MISSING, receiver, &receipt_id.0)?;
        put_count(self.alloc, &mut self.store, key.as_slice(), count)?;
        Ok(())
    }

    /// Takes out how many inputs a postponed receipt lacks; `false` where it wasn't there.
    ///
    /// # Errors
    ///
    /// Where memory ran out. All is then as it was.
    pub fn remove_missing(
        &mut self,
        receiver: &AccountId,
        receipt_id: &Hash32,
    ) -> Result<bool, AllocError>
        ensures found { IfOk result (λ found. found
            ≡ is_some (map.get self.old.columns.missing (receiver.now, receipt_id.now.0))) }
        ensures ok { OnOk result (self.new ≡ with_columns self.old
            (record self.old.columns {
              missing = map.remove self.old.columns.missing
                  (receiver.now, receipt_id.now.0);
            })) }
        ensures err { OnErr result (self.new ≡ self.old) }
    {
        let key = keys::pair_slot(keys::MISSING, receiver, &receipt_id.0)?;
        let found = self.store.remove(key.as_slice())?;
        Ok(found)
    }
}
