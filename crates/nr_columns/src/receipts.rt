//! Postponed and delayed receipts.

ghost use Rattle.std.specs.Prelude.{◌≡◌, IfOk, OnOk, OnErr, is_some, Some};
ghost use Rattle.std.specs.FinMap as map;
ghost use Rattle.nr_records.specs.Receipts.{IsReceipt};
ghost use Rattle.nr_records.specs.Ids.{IsId};
ghost use Rattle.nr_ids.specs.Keys.{IsHash};
ghost use Rattle.nr_columns.specs.View.{with_columns};

use crate::columns::Columns;
use crate::keys;
use crate::numbers::{put_queue, stored_queue};
use crate::stored::{put, stored};
use nr_ids::{AccountId, Hash32};
use nr_records::Receipt;
use nr_triedef::Store;
use std::alloc::AllocError;

impl<S: Store> Columns<S> {
    /// A postponed receipt; `None` where there is none.
    ///
    /// # Errors
    ///
    /// Where memory ran out.
    pub fn postponed(
        &self,
        receiver: &AccountId,
        receipt_id: &Hash32,
    ) -> Result<Option<Receipt>, AllocError>
        ensures { IfOk result (λ found. found ≡ map.get self.now.columns.postponed (receiver.now, receipt_id.now.0)) }
    {
        let key = keys::pair_slot(keys::POSTPONED, receiver, &receipt_id.0)?;
        stored(self.alloc, &self.store, key.as_slice())
    }

    /// Writes a postponed receipt, under this receiver and id.
    ///
    /// # Errors
    ///
    /// Where memory ran out or a size of the store would be passed. All is then as it was.
    pub fn set_postponed(
        &mut self,
        receiver: &AccountId,
        receipt_id: &Hash32,
        receipt: &Receipt,
    ) -> Result<(), AllocError>
        ensures ok { OnOk result (self.new ≡ with_columns self.old
            (record self.old.columns {
              postponed = map.insert self.old.columns.postponed
                  (receiver.now, receipt_id.now.0) receipt.now;
            })) }
        ensures fits { OnOk result (IsId receiver.now × (IsHash receipt_id.now × IsReceipt receipt.now)) }
        ensures err { OnErr result (self.new ≡ self.old) }
    {
        let key = keys::pair_slot(keys::POSTPONED, receiver, &receipt_id.0)?;
        put(&mut self.spelled, &mut self.store, key.as_slice(), receipt)?;
        Ok(())
    }

    /// Takes a postponed receipt out; `false` where it wasn't there.
    ///
    /// # Errors
    ///
    /// Where memory ran out. All is then as it was.
    pub fn remove_postponed(
        &mut self,
        receiver: &AccountId,
        receipt_id: &Hash32,
    ) -> Result<bool, AllocError>
        ensures found { IfOk result (λ found. found
            ≡ is_some (map.get self.old.columns.postponed (receiver.now, receipt_id.now.0))) }
        ensures ok { OnOk result (self.new ≡ with_columns self.old
            (record self.old.columns {
              postponed = map.remove self.old.columns.postponed
                  (receiver.now, receipt_id.now.0);
            })) }
        ensures err { OnErr result (self.new ≡ self.old) }
    {
        let key = keys::pair_slot(keys::POSTPONED, receiver, &receipt_id.0)?;
        let found = self.store.remove(key.as_slice())?;
        Ok(found)
    }

    /// How many delayed receipts were served, and the number that the next one gets; `None` where
    /// none was ever delayed.
    ///
    /// # Errors
    ///
    /// Where memory ran out.
    pub fn queue(&self) -> Result<Option<(u64, u64)>, AllocError>
        ensures { IfOk result (λ found. found ≡ self.now.columns.queue) }
    {
        Ok(stored_queue(&self.store, &[keys::DELAYED]))
    }

    /// Writes how many delayed receipts were served, and the number that the next one gets.
    ///
    /// # Errors
    ///
    /// Where memory ran out or a size of the store would be passed. All is then as it was.
    pub fn set_queue(&mut self, served: u64, next: u64) -> Result<(), AllocError>
        ensures ok { OnOk result (self.new ≡ with_columns self.old
            (record self.old.columns { queue = Some (served, next) })) }
        ensures err { OnErr result (self.new ≡ self.old) }
    {
        put_queue(self.alloc, &mut self.store, &[keys::DELAYED], served, next)?;
        Ok(())
    }

    /// A delayed receipt, by its number; `None` where there is none.
    ///
    /// # Errors
    ///
    /// Where memory ran out.
    pub fn delayed(&self, number: u64) -> Result<Option<Receipt>, AllocError>
        ensures { IfOk result (λ found. found ≡ map.get self.now.columns.delayed number) }
    {
        let key = keys::delayed_key(self.alloc, number)?;
        stored(self.alloc, &self.store, key.inner())
    }

    /// Writes a delayed receipt under its number.
    ///
    /// # Errors
    ///
    /// Where memory ran out or a size of the store would be passed. All is then as it was.
    pub fn set_delayed(&mut self, number: u64, receipt: &Receipt) -> Result<(), AllocError>
        ensures ok { OnOk result (self.new ≡ with_columns self.old
            (record self.old.columns { delayed = map.insert self.old.columns.delayed number receipt.now })) }
        ensures fits { OnOk result (IsReceipt receipt.now) }
        ensures err { OnErr result (self.new ≡ self.old) }
    {
        let key = keys::delayed_key(self.alloc, number)?;
        put(&mut self.spelled, &mut self.store, key.inner(), receipt)?;
        Ok(())
    }

    /// Takes a delayed receipt out; `false` where it wasn't there.
    ///
    /// # Errors
    ///
    /// Where memory ran out. All is then as it was.
    pub fn remove_delayed(&mut self, number: u64) -> Result<bool, AllocError>
        ensures found { IfOk result (λ found. found ≡ is_some (map.get self.old.columns.delayed number)) }
        ensures ok { OnOk result (self.new ≡ with_columns self.old
            (record self.old.columns { delayed = map.remove self.old.columns.delayed number })) }
        ensures err { OnErr result (self.new ≡ self.old) }
    {
        let key = keys::delayed_key(self.alloc, number)?;
        let found = self.store.remove(key.inner())?;
        Ok(found)
    }
}
