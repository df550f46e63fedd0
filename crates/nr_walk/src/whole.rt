//! The walk from a root, and what it shows of every finite map that agrees with the texts.

ghost use Rattle.std.specs.Prelude.{◌≡◌, IfOk};
ghost use Rattle.std.specs.FinMap as map;
ghost use Rattle.nr_bytes.specs.Answers.{Gives};
ghost use Rattle.nr_triedef.specs.Root.{Contents, paths};
ghost use Rattle.nr_walk.specs.Shown.{IsOf, Shows, is_empty_root, walk_of};
ghost use Rattle.nr_walk.specs.Texts.{memory_fault};

use crate::fault::WalkFault;
use crate::searched::Searched;
use crate::texts::Texts;
use crate::told::Spot;
use crate::walking::{Gain, walk_from};
use nr_bytes::{Blob, List};
use nr_ids::Hash32;
use std::alloc::Global;

fn is_empty_root(root: &Hash32) -> bool
    ensures { result ≡ is_empty_root root.now }
{
    root.0 == [0; 32]
}

#[tactic(auto, unfolding(crate::specs::Shown::walk_of))]
fn walk_exactly(
    alloc: Global,
    texts: &Texts,
    root: &Hash32,
    searched: &[Searched],
) -> Result<List<Gain>, WalkFault>
    ensures { Gives memory_fault result (walk_of texts.now searched.now root.now) }
{
    if is_empty_root(root) {
        return Ok(List::of(Vec::new(alloc)));
    }
    let place = Blob::of(Vec::new(alloc));
    walk_from(alloc, texts, searched, Spot { place, hash: *root })
}

/// Walks over the texts from a root, depth first, and gives what each node adds. A root of 32 zeros is
/// that of the empty map: nothing is looked at, and nothing is gained.
///
/// # Errors
///
/// The first fault in depth-first order, as `WalkFault` says: at one node its own text comes first,
/// then the text of its value where that is searched, then its children, the lowest nibble's first.
/// `Memory` where memory ran out.
pub fn walk(
    alloc: Global,
    texts: &Texts,
    root: &Hash32,
    searched: &[Searched],
) -> Result<List<Gain>, WalkFault>
    // Which answer it is.
    ensures exact { Gives memory_fault result (walk_of texts.now searched.now root.now) }
    // What it shows of each map that a store can hold, has this root and agrees with the texts.
    ensures whole { IfOk result (λ gains. (m : Contents) → IsOf texts.now root.now m
        → Shows searched.now (paths (map.entries m)) gains (paths (map.entries m))) }
{
    walk_exactly(alloc, texts, root, searched)
}
