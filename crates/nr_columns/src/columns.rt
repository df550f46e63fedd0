//! The columns of the state trie over a store.

ghost use Rattle.std.specs.Prelude.{◌≡◌, ◌+◌, ◌<◌, ◌≤◌, ◌∷◌, [], length, drop, max, IfOk, OnOk, OnErr};
ghost use Rattle.std.specs.FinMap as map;
ghost use Rattle.nr_triedef.specs.Root.{root_of};
ghost use Rattle.nr_columns.specs.Columns.{no_columns, laid_columns};
ghost use Rattle.nr_columns.specs.Entries.{contents_of, pairs_of};
ghost use Rattle.nr_columns.specs.View.{IsLaid, columns_in};

use crate::entry::Entry;
use crate::lists::{entries_at, set_each};
use nr_bytes::{List, Writer};
use nr_triedef::{NodeHash, Steps, Store};
use std::alloc::{AllocError, Global};
use std::marker::Model;
use std::sync::ledger::Ledger;

/// The columns of the state trie, over any store.
///
/// Contracts see the columns, those of each standing checkpoint (the newest first), and how many
/// more checkpoints can be made without memory.
///
/// # Errors
///
/// Each error is want of memory. But for `remove_access_keys` and `remove_data` it leaves all as it
/// was.
#[derive(Drop)]
pub struct Columns<S: Store> {
    pub(crate) alloc: Global,
    pub(crate) store: S,
    // What the record that was written last is spelled as. Its memory serves for the next one.
    pub(crate) spelled: Writer,
}

impl<S: Store> Model for Columns<S> {
    ghost use Rattle.nr_columns.specs.View.{ColumnsView, columns_view, AreLaid};
    ghost use Rattle.nr_columns.specs.Codes.{view_code};

    ghost Value = { ColumnsView };

    ghost coded = { view_code };

    ghost view = { λ s. columns_view (S.contents s.store) (S.marks s.store) (S.spare s.store) };

    ghost invariant = { λ s. AreLaid (S.contents s.store) (S.marks s.store) };
}

impl<S: Store + Drop> Columns<S> {
    /// The columns that entries stand for, over an empty store.
    ///
    /// # Errors
    ///
    /// Where memory runs out. The store is let go.
    pub fn from_entries(
        alloc: Global,
        store: S,
        entries: &List<Entry>,
    ) -> Result<Columns<S>, AllocError>
        requires empty { S.contents store ≡ map.empty }
        requires marks { S.marks store ≡ [] }
        requires laid { IsLaid (contents_of entries.now) }
        ensures columns { IfOk result (λ found. found.columns ≡ columns_in (contents_of entries.now)) }
        ensures marks { IfOk result (λ found. found.marks ≡ []) }
        ensures spare { IfOk result (λ found. found.spare ≡ S.spare store) }
    {
        let mut store = store;
        set_each(&mut store, entries.inner())?;
        Ok(Columns {
            alloc,
            store,
            spelled: Writer::new(alloc),
        })
    }
}

impl<S: Store> Columns<S> {
    /// No columns, over an empty store.
    pub fn new(alloc: Global, store: S) -> Columns<S>
        requires empty { S.contents store ≡ map.empty }
        requires marks { S.marks store ≡ [] }
        ensures columns { result.columns ≡ no_columns }
        ensures marks { result.marks ≡ [] }
        ensures spare { result.spare ≡ S.spare store }
    {
        Columns {
            alloc,
            store,
            spelled: Writer::new(alloc),
        }
    }

    /// All entries of the trie, in the order of their keys' bytes.
    ///
    /// # Errors
    ///
    /// Where memory ran out.
    pub fn entries(&self) -> Result<List<Entry>, AllocError>
        ensures { IfOk result (λ found. pairs_of found ≡ map.entries (laid_columns self.now.columns)) }
    {
        let keys = self.store.below(&[])?;
        let found = entries_at(self.alloc, &self.store, keys.into_inner())?;
        Ok(List::of(found))
    }

    /// The root of the trie: 32 zero bytes where there is no entry.
    ///
    /// # Errors
    ///
    /// Where memory ran out.
    pub fn root<L: Ledger>(&mut self, steps: &mut Steps<L>) -> Result<NodeHash, AllocError>
        ensures root { IfOk result (λ root. root ≡ (root_of (laid_columns self.old.columns)).hash) }
        ensures same { self.new ≡ self.old }
    {
        self.store.root(steps)
    }

    /// Makes room for `n` more checkpoints where there is room for fewer. There are at most eight,
    /// standing and spare together.
    ///
    /// # Errors
    ///
    /// Where memory ran out. The spare is then as it was.
    pub fn reserve_marks(&mut self, n: usize) -> Result<(), AllocError>
        requires { length self.old.marks + n ≤ 8 }
        ensures columns { self.new.columns ≡ self.old.columns }
        ensures marks { self.new.marks ≡ self.old.marks }
        ensures spare { OnOk result (self.new.spare ≡ max self.old.spare n) }
        ensures err { OnErr result (self.new.spare ≡ self.old.spare) }
    {
        self.store.reserve_marks(n)
    }

    /// Makes a checkpoint, which takes one of the spare.
    pub fn mark(&mut self)
        requires { 0 < self.old.spare }
        ensures columns { self.new.columns ≡ self.old.columns }
        ensures marks { self.new.marks ≡ self.old.columns ∷ self.old.marks }
        ensures spare { self.new.spare + 1 ≡ self.old.spare }
    {
        self.store.mark();
    }

    /// Commits the newest checkpoint: drops it, and keeps the changes since then.
    pub fn keep(&mut self)
        requires { 0 < length self.old.marks }
        ensures columns { self.new.columns ≡ self.old.columns }
        ensures marks { self.new.marks ≡ drop 1 self.old.marks }
        ensures spare { self.new.spare ≡ self.old.spare + 1 }
    {
        self.store.keep();
    }

    /// Rolls back to the newest checkpoint: undoes the changes since then, and drops it.
    pub fn back(&mut self)
        requires { 0 < length self.old.marks }
        ensures marks { self.old.marks ≡ self.new.columns ∷ self.new.marks }
        ensures spare { self.new.spare ≡ self.old.spare + 1 }
    {
        self.store.back();
    }
}
