//! A walk for some accounts, and the root after a change of their entries.

ghost use Rattle.std.specs.Prelude.{◌≡◌, ℕ, IfOk, List as Items};
ghost use Rattle.std.specs.FinMap as map;
ghost use Rattle.nr_bytes.specs.Answers.{Gives};
ghost use Rattle.nr_triedef.specs.Root.{Contents, paths, root_of};
ghost use Rattle.nr_walk.specs.declared.searched.Searched.{Searched as OneSearched};
ghost use Rattle.nr_walk.specs.Shown.{IsOf, walk_of};
ghost use Rattle.nr_walk.specs.Texts.{memory_fault};
ghost use Rattle.nr_remake.specs.Merging.{IsChanged, IsKept, found_in, kept_in, pairs_of, parts_of, remade};
ghost use Rattle.nr_remake.specs.Merging.{searched_entries};
ghost use Rattle.nr_stateless.specs.Accounts.{found_of, searched_of};
ghost use Rattle.nr_stateless.specs.Changing.{AreNew, HasBytes, IsPart, IsReplaced, replaced};

use crate::accounts::searched_of;
use nr_bytes::List;
use nr_columns::Entry;
use nr_ids::{AccountId, Hash32};
use nr_remake::remade_root;
use nr_walk::{Gain, Kept, Searched, Texts, WalkFault, walk};
use std::alloc::{AllocError, Global};
use std::marker::Model;

/// What a walk knows of a trie beside the entries that it found. Contracts see what is kept, in the
/// order of the walk.
#[derive(Drop)]
pub struct Partial {
    alloc: Global,
    kept: Vec<Kept>,
}

impl Model for Partial {
    ghost use Rattle.std.specs.Prelude.{List};
    ghost use Rattle.nr_walk.specs.declared.walking.Kept.{Kept as OneKept};

    ghost Value = { List OneKept };

    ghost view = { λ p. p.kept.items };
}

fn split(alloc: Global, gains: List<Gain>) -> Result<(Partial, List<Entry>), AllocError>
    ensures { IfOk result (λ r. r ≡ (kept_in gains, found_in gains)) }
{
    let mut kept = Vec::new(alloc);
    let mut found = Vec::new(alloc);
    for gain in gains.into_inner() {
        match gain {
            Gain::Found(entry) => found.push(entry)?,
            Gain::Beside(one) => kept.push(one)?,
        }
    }
    Ok((Partial { alloc, kept }, List::of(found)))
}

// The walk for what is searched.
fn walked(
    alloc: Global,
    texts: &Texts,
    root: &Hash32,
    searched: &[Searched],
) -> Result<(Partial, List<Entry>), WalkFault>
    ensures exact { Gives memory_fault result (parts_of (walk_of texts.now searched.now root.now)) }
    ensures whole { IfOk result (λ r. (m : Contents) → IsOf texts.now root.now m
        → IsKept searched.now (paths (map.entries m)) r.0 × (pairs_of r.1 ≡ searched_entries searched.now m)) }
{
    let gains = walk(alloc, texts, root, searched)?;
    let parts = split(alloc, gains)?;
    Ok(parts)
}

impl Partial {
    /// Walks over the texts from a root, depth first, and gives the entries of these accounts and of
    /// the delayed queue, in the order of their keys. An account's are itself, its code and all that
    /// it owns. A root of 32 zeros is that of the empty map: nothing is looked at, and there is no
    /// entry.
    ///
    /// # Errors
    ///
    /// The first fault in depth-first order, as `WalkFault` says: at one node its own text comes
    /// first, then the text of its value where that is searched, then its children, the lowest
    /// nibble's first. `Memory` where memory ran out.
    pub fn walk(
        alloc: Global,
        texts: &Texts,
        root: &Hash32,
        accounts: &List<AccountId>,
    ) -> Result<(Partial, List<Entry>), WalkFault>
        // Which answer it is.
        ensures exact { Gives memory_fault result (parts_of (walk_of texts.now (searched_of accounts.now) root.now)) }
        // What it gives of each map that a store can hold, has this root and agrees with the texts.
        ensures whole { IfOk result (λ r. (m : Contents) → IsOf texts.now root.now m → IsPart accounts.now m r.0
            × (pairs_of r.1 ≡ found_of accounts.now m)) }
    {
        let searched = searched_of(alloc, accounts.inner())?;
        let parts = walked(alloc, texts, root, searched.inner())?;
        Ok(parts)
    }

    /// The root with the entries found replaced by new ones. Each new entry is of the accounts that
    /// the walk was for or of the delayed queue, and they stand in the order of their keys, which
    /// differ; else nothing is said of the root.
    ///
    /// # Errors
    ///
    /// Where memory ran out. It may say so too where the new entries stand out of order or twice, a
    /// value has 2^32 bytes or more, or a usage would pass 2^64.
    pub fn change(self, new: &List<Entry>) -> Result<Hash32, AllocError>
        // Which root it is.
        ensures exact { IfOk result (λ hash. hash ≡ remade self new.now) }
        // Of each map that was walked: it is that of the map with its searched entries replaced by the new ones.
        ensures replaced { IfOk result (λ hash. (accounts : Items (Items ℕ)) (m : Contents) → HasBytes m
            → IsPart accounts m self → AreNew accounts new.now → hash ≡ (root_of (replaced accounts m new.now)).hash) }
        // It is that of each map that differs from such a one in the searched entries alone, which are the new ones.
        ensures changed { IfOk result (λ hash. (accounts : Items (Items ℕ)) (m n : Contents) → IsPart accounts m self
            → IsReplaced accounts m n new.now → hash ≡ (root_of n).hash) }
    {
        let hash = self.root_with(new)?;
        Ok(hash)
    }

    // The root of what is kept together with new entries.
    fn root_with(self, new: &List<Entry>) -> Result<Hash32, AllocError>
        ensures exact { IfOk result (λ hash. hash ≡ remade self new.now) }
        ensures changed { IfOk result (λ hash. (searched : Items OneSearched) (m n : Contents)
            → IsKept searched (paths (map.entries m)) self → IsChanged searched m n new.now → hash ≡ (root_of n).hash) }
    {
        let hash = remade_root(self.alloc, &self.kept, new)?;
        Ok(hash)
    }
}
