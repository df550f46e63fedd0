//! The state of a shard.

ghost use Rattle.std.specs.Prelude.{◌≡◌, ◌+◌, ◌<◌, ◌≤◌, ◌∷◌, [], true, length, drop, max, IfOk, OnOk, OnErr};
ghost use Rattle.std.specs.FinMap as map;
ghost use Rattle.nr_triedef.specs.Root.{root_of};
ghost use Rattle.nr_columns.specs.Entries.{pairs_of};
ghost use Rattle.nr_state.specs.FromEntries.{AreWholeEntries, world_from};
ghost use Rattle.nr_state.specs.World.{no_world};
ghost use Rattle.nr_state.specs.Flat.{flat};

use nr_bytes::List;
use nr_columns::laws::laid_laws;
use nr_columns::{Columns, Entry};
use nr_config::Config;
use nr_triedef::{NodeHash, Steps, Store};
use std::alloc::{AllocError, Global};
use std::marker::Model;
use std::sync::ledger::Ledger;

/// The state of a shard, over any store.
///
/// Contracts see its world, those of the standing checkpoints (the newest first), how many more
/// checkpoints can be made without memory, its configuration, and whether it is whole: no change
/// was left in the middle.
///
/// # Errors
///
/// Each error is want of memory, or an account that would be counted as 2^64 bytes or more. A call
/// that answers it may leave its change in the middle; the state can then only be read or dropped.
/// `reserve_marks`, `root`, `set_account`, `put_key`, `put_code` and `put_datum` leave all as it was.
#[derive(Drop)]
pub struct ShardState<S: Store> {
    pub(crate) columns: Columns<S>,
    pub(crate) config: Config,
    pub(crate) alloc: Global,
    // No change was left in the middle.
    pub(crate) whole: bool,
}

impl<S: Store> Model for ShardState<S> {
    ghost use Rattle.nr_state.specs.View.{StateView, state_view, IsState};
    ghost use Rattle.nr_state.specs.Codes.{view_code};

    ghost Value = { StateView };

    ghost coded = { view_code };

    ghost view = { λ s. state_view s.columns s.config s.whole };

    ghost invariant = { λ s. IsState s.columns s.whole };
}

impl<S: Store + Drop> ShardState<S> {
    /// The world that trie entries stand for, over an empty store.
    ///
    /// # Errors
    ///
    /// Where memory runs out. The store is let go.
    pub fn from_entries(
        alloc: Global,
        store: S,
        config: &Config,
        entries: &List<Entry>,
    ) -> Result<ShardState<S>, AllocError>
        requires empty { S.contents store ≡ map.empty }
        requires marks { S.marks store ≡ [] }
        requires entries { AreWholeEntries entries.now }
        ensures world { IfOk result (λ state. state.world ≡ world_from entries.now) }
        ensures marks { IfOk result (λ state. state.marks ≡ []) }
        ensures spare { IfOk result (λ state. state.spare ≡ S.spare store) }
        ensures config { IfOk result (λ state. state.config ≡ config.now) }
        ensures whole { IfOk result (λ state. state.whole ≡ true) }
    {
        let columns = Columns::from_entries(alloc, store, entries)?;
        Ok(ShardState {
            columns,
            config: *config,
            alloc,
            whole: true,
        })
    }
}

impl<S: Store> ShardState<S> {
    /// An empty world, over an empty store.
    pub fn new(alloc: Global, store: S, config: &Config) -> ShardState<S>
        requires empty { S.contents store ≡ map.empty }
        requires marks { S.marks store ≡ [] }
        ensures world { result.world ≡ no_world }
        ensures marks { result.marks ≡ [] }
        ensures spare { result.spare ≡ S.spare store }
        ensures config { result.config ≡ config.now }
        ensures whole { result.whole ≡ true }
    {
        ShardState {
            columns: Columns::new(alloc, store),
            config: *config,
            alloc,
            whole: true,
        }
    }

    /// The configuration.
    pub fn config(&self) -> &Config
        ensures { result.now ≡ self.now.config }
    {
        &self.config
    }

    /// All trie entries of the world, in the order of their keys' bytes.
    ///
    /// # Errors
    ///
    /// Where memory ran out.
    pub fn entries(&self) -> Result<List<Entry>, AllocError>
        requires { self.now.whole ≡ true }
        ensures entries { IfOk result (λ found. pairs_of found ≡ map.entries (flat self.now.world)) }
        // The world can be made of them again.
        ensures whole { IfOk result AreWholeEntries }
        ensures world { IfOk result (λ found. world_from found ≡ self.now.world) }
    {
        laid_laws(&self.columns);
        self.columns.entries()
    }

    /// The root of the trie: 32 zero bytes where the world is empty.
    ///
    /// # Errors
    ///
    /// Where memory ran out.
    pub fn root<L: Ledger>(&mut self, steps: &mut Steps<L>) -> Result<NodeHash, AllocError>
        requires { self.old.whole ≡ true }
        ensures root { IfOk result (λ root. root ≡ (root_of (flat self.old.world)).hash) }
        ensures same { self.new ≡ self.old }
    {
        self.columns.root(steps)
    }

    /// Makes room for `n` more checkpoints where there is room for fewer. There are at most eight,
    /// standing and spare together.
    ///
    /// # Errors
    ///
    /// Where memory ran out. The spare is then as it was.
    pub fn reserve_marks(&mut self, n: usize) -> Result<(), AllocError>
        requires whole { self.old.whole ≡ true }
        requires room { length self.old.marks + n ≤ 8 }
        ensures world { self.new.world ≡ self.old.world }
        ensures marks { self.new.marks ≡ self.old.marks }
        ensures spare { OnOk result (self.new.spare ≡ max self.old.spare n) }
        ensures err { OnErr result (self.new.spare ≡ self.old.spare) }
        ensures config { self.new.config ≡ self.old.config }
        ensures whole { self.new.whole ≡ true }
    {
        self.columns.reserve_marks(n)
    }

    /// Makes a checkpoint, which takes one of the spare.
    pub fn mark(&mut self)
        requires whole { self.old.whole ≡ true }
        requires room { 0 < self.old.spare }
        ensures world { self.new.world ≡ self.old.world }
        ensures marks { self.new.marks ≡ self.old.world ∷ self.old.marks }
        ensures spare { self.new.spare + 1 ≡ self.old.spare }
        ensures config { self.new.config ≡ self.old.config }
        ensures whole { self.new.whole ≡ true }
    {
        self.columns.mark();
    }

    /// Commits: drops the newest checkpoint and keeps the changes since then.
    pub fn keep(&mut self)
        requires whole { self.old.whole ≡ true }
        requires room { 0 < length self.old.marks }
        ensures world { self.new.world ≡ self.old.world }
        ensures marks { self.new.marks ≡ drop 1 self.old.marks }
        ensures spare { self.new.spare ≡ self.old.spare + 1 }
        ensures config { self.new.config ≡ self.old.config }
        ensures whole { self.new.whole ≡ true }
    {
        self.columns.keep();
    }

    /// Rolls back: drops the newest checkpoint and undoes the changes since then.
    pub fn back(&mut self)
        requires whole { self.old.whole ≡ true }
        requires room { 0 < length self.old.marks }
        ensures marks { self.old.marks ≡ self.new.world ∷ self.new.marks }
        ensures spare { self.new.spare ≡ self.old.spare + 1 }
        ensures config { self.new.config ≡ self.old.config }
        ensures whole { self.new.whole ≡ true }
    {
        self.columns.back();
    }
}
