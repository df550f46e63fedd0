//! The root of what is kept together with new entries.

ghost use Rattle.std.specs.Prelude.{◌≡◌, IfOk, List as Items};
ghost use Rattle.std.specs.FinMap as map;
ghost use Rattle.nr_triedef.specs.Root.{Contents, paths, root_of};
ghost use Rattle.nr_walk.specs.declared.searched.Searched.{Searched as OneSearched};
ghost use Rattle.nr_remake.specs.Merging.{IsChanged, IsKept, marked, marks_of, pairs_of, remade};

use crate::rests::merged;
use crate::trie::trie;
use nr_bytes::List;
use nr_columns::Entry;
use nr_ids::Hash32;
use nr_triedef::{nibbles, value_hash};
use nr_walk::{Kept, Known};
use std::alloc::{AllocError, Global};

// An entry, as what is known of it. A value of 2^32 bytes or more counts as want of memory.
fn kept_of(alloc: Global, entry: &Entry) -> Result<Kept, AllocError>
    ensures { IfOk result (λ k. marks_of (k ∷ []) ≡ marked (paths (pairs_of (entry.now ∷ [])))) }
{
    let value = entry.value.inner();
    let length = u32::try_from(value.len()).map_err(|_| AllocError)?;
    let path = nibbles(alloc, entry.key.inner())?;
    Ok(Kept {
        path,
        known: Known::Value {
            length,
            hash: value_hash(value),
        },
    })
}

ghost use Rattle.std.specs.Prelude.{◌∷◌, []};

fn all_kept(alloc: Global, entries: &[Entry]) -> Result<Vec<Kept>, AllocError>
    ensures { IfOk result (λ list. marks_of list.items ≡ marked (paths (pairs_of entries.now))) }
{
    let mut list = Vec::new(alloc);
    for entry in entries {
        list.push(kept_of(alloc, entry)?)?;
    }
    Ok(list)
}

fn exact_root(alloc: Global, kept: &[Kept], new: &[Entry]) -> Result<Hash32, AllocError>
    ensures { IfOk result (λ hash. hash ≡ remade kept.now new.now) }
{
    let new = all_kept(alloc, new)?;
    let marks = merged(alloc, kept, &new)?;
    match trie(alloc, marks)? {
        None => Ok(Hash32([0; 32])),
        Some(top) => Ok(top.hash),
    }
}

/// The root of the trie of what is kept and of new entries, which stand in the order of their keys.
///
/// # Errors
///
/// Where memory ran out.
pub fn remade_root(alloc: Global, kept: &[Kept], new: &List<Entry>) -> Result<Hash32, AllocError>
    // Which root it is.
    ensures exact { IfOk result (λ hash. hash ≡ remade kept.now new.now) }
    // It is the root of each map that has these entries in the place of those that were found.
    ensures changed { IfOk result (λ hash. (searched : Items OneSearched) (m n : Contents)
        → IsKept searched (paths (map.entries m)) kept.now → IsChanged searched m n new.now → hash ≡ (root_of n).hash) }
{
    exact_root(alloc, kept, new.inner())
}
