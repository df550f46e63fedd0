//! All records of a column.

ghost use Rattle.std.specs.Prelude.{◌≡◌, ℕ, List as Items, None, IfOk, IsSome, option_and_then};
ghost use Rattle.std.specs.FinMap as map;
ghost use Rattle.std.specs.List.{flat_map};
ghost use Rattle.std.specs.Option.{option_to_list};
ghost use Rattle.nr_ids.specs.Grammar.{id_fault};
ghost use Rattle.nr_records.specs.Reading.{all_of};
ghost use Rattle.nr_columns.specs.Tables.{read_of};

use crate::columns::Columns;
use crate::keys;
use crate::stored::stored;
use nr_bytes::{Blob, List};
use nr_records::{Account, Receipt, Spelled};
use nr_triedef::Store;
use std::alloc::{AllocError, Global};

/// The records that are spelled at the keys.
fn records_at<S: Store, T: Spelled>(
    alloc: Global,
    store: &S,
    keys: &[Blob],
) -> Result<Vec<T>, AllocError>
    ensures { IfOk result (λ found. found.items
        ≡ flat_map (λ key. option_to_list (option_and_then (λ bytes. read_of (all_of T.reading bytes))
        (map.get (S.contents store.now) key))) keys.now) }
{
    let mut found = Vec::with_capacity(alloc, keys.len())?;
    for key in keys {
        if let Some(record) = stored(alloc, store, key.inner())? {
            found.push(record)?;
        }
    }
    Ok(found)
}

impl<S: Store> Columns<S> {
    /// All accounts, in the order of their ids.
    ///
    /// # Errors
    ///
    /// Where memory ran out.
    pub fn accounts(&self) -> Result<List<Account>, AllocError>
        ensures { IfOk result (λ found. found ≡ map.values self.now.columns.accounts) }
    {
        let keys = self.store.below(&[keys::ACCOUNT])?;
        let found = records_at(self.alloc, &self.store, keys.inner())?;
        Ok(List::of(found))
    }

    /// All postponed receipts, in the order of their receivers and ids. Each receiver is an account
    /// id.
    ///
    /// # Errors
    ///
    /// Where memory ran out.
    pub fn postponed_receipts(&self) -> Result<List<Receipt>, AllocError>
        requires { (k : Items ℕ × Items ℕ) → IsSome (map.get self.now.columns.postponed k) → id_fault k.0 ≡ None }
        ensures { IfOk result (λ found. found ≡ map.values self.now.columns.postponed) }
    {
        let keys = self.store.below(&[keys::POSTPONED])?;
        let found = records_at(self.alloc, &self.store, keys.inner())?;
        Ok(List::of(found))
    }
}
