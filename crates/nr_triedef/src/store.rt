//! The trait of stores.

ghost use Rattle.std.specs.Prelude.{◌≡◌, ℕ, ◌+◌, ◌<◌, ◌≤◌, ◌∷◌, List as Items, length, drop, is_some, max, IfOk, OnOk};
ghost use Rattle.std.specs.Prelude.{OnErr};
ghost use Rattle.std.specs.Option.{option_copied};
ghost use Rattle.std.specs.FinMap as map;
ghost use Rattle.nr_triedef.specs.Root.{Contents, root_of};
ghost use Rattle.nr_triedef.specs.Stores.{keys_below, most_entries, IsSizedEntry, IsSized};

use crate::hash::{NodeHash, Steps};
use nr_bytes::{Blob, List};
use std::alloc::AllocError;
use std::sync::ledger::Ledger;

/// A finite map from keys to values, both byte strings, with nested checkpoints and a Merkle root.
///
/// It holds at most 2^26 entries, each with a key of at most 70,000,000 bytes and a value of fewer
/// than 2^32 bytes. What a call costs is each store's own matter.
///
/// # Errors
///
/// Each error is want of memory. It leaves the contents, the checkpoints and the spare as they
/// were. A `set` that would pass one of the sizes is refused so too.
pub trait Store {
    /// The entries that it holds.
    ghost contents: { Self → Contents };

    /// The contents that each standing checkpoint saved, the newest first.
    ghost marks: { Self → Items Contents };

    /// How many more checkpoints can be made without new memory.
    ghost spare: { Self → ℕ };

    /// The value at a key; `None` exactly where there is none.
    fn get(&self, key: &[u8]) -> Option<&[u8]>
        ensures { option_copied result ≡ map.get (contents self.now) key.now };

    /// Does nothing. It tells that what any store holds, whatever was done before, keeps within the
    /// sizes.
    fn sizes(&self)
        ensures { IsSized (contents self.now) };

    /// Puts a value at a key, in place of an earlier one.
    fn set(&mut self, key: &[u8], value: &[u8]) -> Result<(), AllocError>
        ensures ok { OnOk result (contents self.new ≡ map.insert (contents self.old) key.now value.now) }
        ensures sizes { OnOk result (IsSizedEntry key.now value.now
            × (length (map.entries (contents self.new)) ≤ most_entries)) }
        ensures err { OnErr result (contents self.new ≡ contents self.old) }
        ensures marks { marks self.new ≡ marks self.old }
        ensures spare { spare self.new ≡ spare self.old };

    /// Takes a key out; `false` exactly where it wasn't there.
    fn remove(&mut self, key: &[u8]) -> Result<bool, AllocError>
        ensures found { IfOk result (λ found. found ≡ is_some (map.get (contents self.old) key.now)) }
        ensures ok { OnOk result (contents self.new ≡ map.remove (contents self.old) key.now) }
        ensures err { OnErr result (contents self.new ≡ contents self.old) }
        ensures marks { marks self.new ≡ marks self.old }
        ensures spare { spare self.new ≡ spare self.old };

    /// Makes room for `n` more checkpoints where there is room for fewer. There are at most eight,
    /// standing and spare together.
    fn reserve_marks(&mut self, n: usize) -> Result<(), AllocError>
        requires { length (marks self.old) + n ≤ 8 }
        ensures spare { OnOk result (spare self.new ≡ max (spare self.old) n) }
        ensures err { OnErr result (spare self.new ≡ spare self.old) }
        ensures contents { contents self.new ≡ contents self.old }
        ensures marks { marks self.new ≡ marks self.old };

    /// Makes a checkpoint of the contents, which takes one of the spare.
    fn mark(&mut self)
        requires { 0 < spare self.old }
        ensures contents { contents self.new ≡ contents self.old }
        ensures marks { marks self.new ≡ contents self.old ∷ marks self.old }
        ensures spare { spare self.new + 1 ≡ spare self.old };

    /// Commits the newest checkpoint: drops it, and keeps the changes since then.
    fn keep(&mut self)
        requires { 0 < length (marks self.old) }
        ensures contents { contents self.new ≡ contents self.old }
        ensures marks { marks self.new ≡ drop 1 (marks self.old) }
        ensures spare { spare self.new ≡ spare self.old + 1 };

    /// Rolls back to the newest checkpoint: undoes the changes since then, and drops it.
    fn back(&mut self)
        requires { 0 < length (marks self.old) }
        ensures marks { marks self.old ≡ contents self.new ∷ marks self.new }
        ensures spare { spare self.new ≡ spare self.old + 1 };

    /// The keys that begin with a prefix, in the order of their bytes.
    fn below(&self, prefix: &[u8]) -> Result<List<Blob>, AllocError>
        ensures { IfOk result (λ keys. keys ≡ keys_below prefix.now (contents self.now)) };

    /// The Merkle root of the contents: 32 zero bytes where there are none. Each node that is hashed
    /// is one of the `steps`.
    fn root<L: Ledger>(&mut self, steps: &mut Steps<L>) -> Result<NodeHash, AllocError>
        ensures root { IfOk result (λ root. root ≡ (root_of (contents self.old)).hash) }
        ensures contents { contents self.new ≡ contents self.old }
        ensures marks { marks self.new ≡ marks self.old }
        ensures spare { spare self.new ≡ spare self.old };
}
