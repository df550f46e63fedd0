//! The texts that a walk over the trie of some entries looks at.

ghost use Rattle.std.specs.Prelude.{◌≡◌, ◌∷◌, ◌++◌, [], ℕ, Ok, Some, List as Items, IfOk, OnOk};
ghost use Rattle.std.specs.FinMap as map;
ghost use Rattle.nr_triedef.specs.Root.{Contents, paths, root_of, root_of_entries};
ghost use Rattle.nr_store.specs.Tries.{CanWalk, whole};
ghost use Rattle.nr_trielist.specs.Growing.{all_nodes};
ghost use Rattle.nr_walk.specs.declared.walking.Gain.{Gain};
ghost use Rattle.nr_walk.specs.Shown.{IsOf, walk_of};
ghost use Rattle.nr_walk.specs.Texts.{texts_of};
ghost use Rattle.nr_columns.specs.Entries.{pairs_of, InOrder};
ghost use Rattle.nr_gather.specs.Gathered.{once, gathered, root_in};

use crate::sweeping::looked_texts;
use nr_bytes::{Blob, List};
use nr_ids::Hash32;
use nr_store::{PlainStore, Span};
use nr_triedef::{Node, Store, value_hash};
use nr_trielist::{Hashes, Top, list_nodes};
use nr_walk::{Entry, Searched, Spot, keys_of};
use std::alloc::{AllocError, Global};

// Lists a text, unless one with its hash is held, and holds it.
fn add_text(
    held: &mut PlainStore,
    list: &mut Vec<Blob>,
    text: Blob,
    hashes: &mut Hashes,
) -> Result<(), AllocError>
    ensures { OnOk result ((more : Items (Items ℕ)) → list.new.items ++ once held.new.contents more
        ≡ list.old.items ++ once held.old.contents (text ∷ more)) }
{
    let hash = hashes.hash(text.inner())?;
    if held.get(&hash.0).is_some() {
        return Ok(());
    }
    held.set(&hash.0, text.inner())?;
    list.push(text)?;
    Ok(())
}

// Each text once, where it stands first.
fn each_once(
    alloc: Global,
    texts: List<Blob>,
    hashes: &mut Hashes,
) -> Result<List<Blob>, AllocError>
    ensures { IfOk result (λ list. list ≡ once map.empty texts) }
{
    let mut held = PlainStore::new(alloc);
    let mut list = Vec::new(alloc);
    let mut left = texts.into_inner();
    left.reverse();
    while let Some(text) = left.pop() {
        add_text(&mut held, &mut list, text, hashes)?;
    }
    Ok(List::of(list))
}

fn top_spot(alloc: Global, hash: Hash32) -> Spot
    ensures { result.place ≡ [] }
{
    let place = Blob::of(Vec::new(alloc));
    Spot { place, hash }
}

fn no_texts(alloc: Global) -> List<Blob>
    ensures { result ≡ [] }
{
    List::of(Vec::new(alloc))
}

// What the trie of the entries tells, where there is one, and all its nodes, depth first.
fn nodes_in(
    alloc: Global,
    entries: &[Entry],
    hashes: &mut Hashes,
) -> Result<(Option<Top>, List<Node>), AllocError>
    requires { InOrder entries.now }
    ensures order { IfOk result (λ _. CanWalk (paths (pairs_of entries.now))) }
    ensures top { IfOk result (λ r. r.0 ≡ whole (paths (pairs_of entries.now))) }
    ensures nodes { IfOk result (λ r. r.1 ≡ all_nodes (paths (pairs_of entries.now))) }
{
    let keys = keys_of(alloc, entries)?;
    list_nodes(alloc, Span::of(&keys), hashes)
}

// The texts that are looked at of a trie with these nodes.
fn texts_in(
    alloc: Global,
    entries: &[Entry],
    searched: &[Searched],
    top: Top,
    nodes: &[Node],
    hashes: &mut Hashes,
) -> Result<List<Blob>, AllocError>
    requires order { CanWalk (paths (pairs_of entries.now)) }
    requires top { Some top ≡ whole (paths (pairs_of entries.now)) }
    requires nodes { nodes.now ≡ all_nodes (paths (pairs_of entries.now)) }
    ensures { IfOk result (λ texts. texts ≡ gathered searched.now (paths (pairs_of entries.now))) }
{
    let spot = top_spot(alloc, top.hash());
    let looked = looked_texts(alloc, searched, entries, nodes, spot)?;
    let texts = each_once(alloc, looked, hashes)?;
    Ok(texts)
}

fn texts_of_all(
    alloc: Global,
    entries: &[Entry],
    searched: &[Searched],
    hashes: &mut Hashes,
) -> Result<List<Blob>, AllocError>
    requires { InOrder entries.now }
    ensures texts { IfOk result (λ texts. texts ≡ gathered searched.now (paths (pairs_of entries.now))) }
    ensures order { IfOk result (λ _. CanWalk (paths (pairs_of entries.now))) }
{
    let (top, nodes) = nodes_in(alloc, entries, hashes)?;
    match top {
        None => Ok(no_texts(alloc)),
        Some(top) => texts_in(alloc, entries, searched, top, nodes.inner(), hashes),
    }
}

/// The texts of the trie of these entries that a walk looks at: those of nodes, and the values that
/// are found, depth first, each once. Long values whose hashes are kept aren't hashed again.
///
/// # Errors
///
/// Where memory ran out; a value of 2^32 bytes or more, a key whose part has so many, or a usage that
/// passes u64, counts as that.
pub fn gather(
    alloc: Global,
    entries: &List<Entry>,
    searched: &[Searched],
    hashes: &mut Hashes,
) -> Result<List<Blob>, AllocError>
    requires { InOrder entries.now }
    // Which texts they are.
    ensures texts { IfOk result (λ texts. texts ≡ gathered searched.now (paths (pairs_of entries.now))) }
    // The root of the trie by them.
    ensures root { IfOk result (λ texts. root_in texts ≡ (root_of_entries (pairs_of entries.now)).hash) }
    // Where the map of the entries agrees with them, the walk over them has no fault.
    ensures walks { IfOk result (λ texts. (m : Contents) → map.entries m ≡ pairs_of entries.now
        → IsOf (texts_of texts) (root_of m).hash m
        → (gains : Items Gain) × (walk_of (texts_of texts) searched.now (root_of m).hash ≡ Ok gains)) }
{
    let texts = texts_of_all(alloc, entries.inner(), searched, hashes)?;
    Ok(texts)
}

/// The root of the trie of which these texts were gathered: 32 zeros where there is none.
pub fn root_of_gathered(texts: &[Blob]) -> Hash32
    ensures { result ≡ root_in texts.now }
{
    match texts.first() {
        Some(text) => value_hash(text.inner()),
        None => Hash32([0; 32]),
    }
}
