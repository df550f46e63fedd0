//! The lists that no chunk of a shard takes.

ghost use Rattle.std.specs.Prelude.{◌≡◌, ◌<◌, ℕ, None, Some, IfOk, OnOk, length};
ghost use Rattle.nr_workers.specs.Left.{slot_of};

use std::alloc::{AllocError, Global};
use std::collections::BTreeMap;

/// For each source the lists of its chunks, by height. A height without a chunk takes no memory.
#[derive(Drop)]
pub(crate) struct Left<L> {
    pub rows: Vec<BTreeMap<u64, L>>,
}

impl<L: Drop> Left<L> {
    /// No list of any source.
    pub(crate) fn new(alloc: Global, shards: u32) -> Result<Left<L>, AllocError>
        ensures all { IfOk result (λ left. length left.rows.items ≡ shards) }
        ensures none { IfOk result (λ left. (t h : ℕ) → slot_of left t h ≡ None) }
    {
        let mut rows = Vec::new(alloc);
        for _source in 0..shards {
            rows.push(BTreeMap::new(alloc))?;
        }
        Ok(Left { rows })
    }

    /// Adds the list of a source and a height.
    pub(crate) fn push(&mut self, source: u32, height: u64, list: L) -> Result<(), AllocError>
        requires { source < length self.old.rows.items }
        ensures all { length self.new.rows.items ≡ length self.old.rows.items }
        ensures list { OnOk result (slot_of self.new source height ≡ Some list) }
        ensures others { (t h : ℕ) → (t ≡ source → h ≡ height → ⊥) → slot_of self.new t h ≡ slot_of self.old t h }
    {
        self.rows[source as usize].insert(height, list)?;
        Ok(())
    }

    /// Takes the list of a source and a height out.
    pub(crate) fn take(&mut self, source: u32, height: u64) -> Option<L>
        ensures list { result ≡ slot_of self.old source height }
        ensures others { (t h : ℕ) → (t ≡ source → h ≡ height → ⊥) → slot_of self.new t h ≡ slot_of self.old t h }
    {
        if source as usize >= self.rows.len() {
            return None;
        }
        self.rows[source as usize].remove(&height)
    }
}
