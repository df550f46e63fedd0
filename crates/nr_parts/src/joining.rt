//! Joining parts.

ghost use Rattle.std.specs.Prelude.{◌≡◌, ◌++◌, ◌<◌, ◌^◌, ℕ, true, length, take, drop, Some, IfOk, OnOk};
ghost use Rattle.std.specs.FinMap as map;
ghost use Rattle.nr_bytes.specs.Answers.{Gives};
ghost use Rattle.nr_triedef.specs.Root.{root_of};
ghost use Rattle.nr_parts.specs.Agreeing.{AreAllOfEach};
ghost use Rattle.nr_parts.specs.Checking.{memory_fault, checked};
ghost use Rattle.nr_parts.specs.Joining.{is_placed, first_astray, each_checked, is_accepted, first_refused, joined};
ghost use Rattle.nr_parts.specs.Joining.{set_all, whole_hash, joined_or_fault};

use crate::checking::{check_part, same_hash};
use crate::fault::PartFault;
use crate::part::Part;
use nr_bytes::List;
use nr_columns::Entry;
use nr_ids::Hash32;
use nr_triedef::{Steps, Store, bytes_of};
use nr_trieupdate::TrieStore;
use std::alloc::{AllocError, Global};
use std::marker::Brand;
use std::sync::ledger::{Blank, Ledger};

fn is_placed(total: usize, at: usize, part: &Part) -> bool
    ensures value { result ≡ is_placed total at part.now }
    ensures small { result ≡ true → total < 2 ^ 32 }
{
    part.number as usize == at && part.count as usize == total
}

// The first position whose part isn't in its place.
fn first_astray(parts: &[Part]) -> Option<u32>
    ensures { result ≡ first_astray (length parts.now) 0 parts.now }
{
    let total = parts.len();
    let mut at: u32 = 0;
    while (at as usize) < total {
        if !is_placed(total, at as usize, &parts[at as usize]) {
            return Some(at);
        }
        at += 1;
    }
    None
}

#[tactic(auto, unfolding(crate::specs::Joining::each_checked))]
fn check_each(alloc: Global, root: &Hash32, parts: &[Part]) -> Result<(), PartFault>
    ensures { Gives memory_fault result (each_checked root.now parts.now) }
{
    for part in parts {
        check_part(alloc, root, part)?;
    }
    Ok(())
}

fn set_entries(store: &mut TrieStore, entries: &[Entry]) -> Result<(), AllocError>
    ensures { OnOk result (store.new.contents ≡ set_all store.old.contents entries.now) }
{
    for entry in entries {
        store.set(entry.key.inner(), entry.value.inner())?;
    }
    Ok(())
}

fn set_parts(store: &mut TrieStore, parts: &[Part]) -> Result<(), AllocError>
    ensures { OnOk result (store.new.contents ≡ set_all store.old.contents (joined parts.now)) }
{
    for part in parts {
        set_entries(store, part.entries.inner())?;
    }
    Ok(())
}

fn counted_hash<L: Ledger>(store: &mut TrieStore, blank: Blank) -> Result<Hash32, AllocError>
    requires name { blank.name ≡ L.name }
    requires parts { blank.parts ≡ L.parts }
    requires whole { 0 < blank.parts }
    ensures { IfOk result (λ hash. hash ≡ (root_of store.old.contents).hash) }
{
    let mut steps = Steps::<L>::new(blank);
    let root = store.root(&mut steps)?;
    Ok(Hash32(bytes_of(&root)))
}

fn whole_hash(alloc: Global, parts: &[Part]) -> Result<Hash32, AllocError>
    ensures { IfOk result (λ hash. hash ≡ whole_hash parts.now) }
{
    let mut store = TrieStore::new(alloc);
    set_parts(&mut store, parts)?;
    counted_hash::<Brand>(&mut store, Blank::new(1))
}

pub(crate) fn copy_of(alloc: Global, entry: &Entry) -> Result<Entry, AllocError>
    ensures { IfOk result (λ copy. copy ≡ entry.now) }
{
    Ok(Entry {
        key: entry.key.duplicate(alloc)?,
        value: entry.value.duplicate(alloc)?,
    })
}

fn push_entries(alloc: Global, all: &mut Vec<Entry>, entries: &[Entry]) -> Result<(), AllocError>
    ensures { OnOk result (all.new.items ≡ all.old.items ++ entries.now) }
{
    for entry in entries {
        let copy = copy_of(alloc, entry)?;
        all.push(copy)?;
    }
    Ok(())
}

fn joined(alloc: Global, parts: &[Part]) -> Result<List<Entry>, AllocError>
    ensures { IfOk result (λ all. all ≡ joined parts.now) }
{
    let mut all = Vec::new(alloc);
    for part in parts {
        push_entries(alloc, &mut all, part.entries.inner())?;
    }
    Ok(List::of(all))
}

fn is_accepted(alloc: Global, root: &Hash32, part: &Part) -> Result<bool, AllocError>
    ensures { IfOk result (λ fine. fine ≡ is_accepted (checked root.now part.now)) }
{
    match check_part(alloc, root, part) {
        Ok(()) => Ok(true),
        Err(PartFault::Memory) => Err(AllocError),
        Err(_) => Ok(false),
    }
}

// The position of the first part that isn't accepted.
#[tactic(auto, unfolding(crate::specs::Joining::first_refused))]
fn refused_at(alloc: Global, root: &Hash32, parts: &[Part]) -> Result<Option<usize>, AllocError>
    ensures { IfOk result (λ at. at ≡ first_refused root.now 0 parts.now) }
{
    for at in 0..parts.len() {
        if !is_accepted(alloc, root, &parts[at])? {
            return Ok(Some(at));
        }
    }
    Ok(None)
}

/// The position of the first part that `check_part` refuses, from 0; none where it accepts each.
///
/// # Errors
///
/// Where memory ran out.
pub fn first_refused(
    alloc: Global,
    root: &Hash32,
    parts: &List<Part>,
) -> Result<Option<usize>, AllocError>
    ensures value { IfOk result (λ at. at ≡ first_refused root.now 0 parts.now) }
    // The first fault of the parts is that of the part at the position.
    ensures fault { IfOk result (λ found. (at : ℕ) → found ≡ Some at → each_checked root.now parts.now
        ≡ each_checked root.now (take 1 (drop at parts.now))) }
{
    refused_at(alloc, root, parts.inner())
}

#[tactic(auto, unfolding(crate::specs::Joining::joined_or_fault))]
fn joined_or_fault(
    alloc: Global,
    root: &Hash32,
    parts: &List<Part>,
) -> Result<List<Entry>, PartFault>
    ensures { Gives memory_fault result (joined_or_fault root.now parts.now) }
{
    if let Some(number) = first_astray(parts.inner()) {
        return Err(PartFault::Order { number });
    }
    check_each(alloc, root, parts.inner())?;
    let found = whole_hash(alloc, parts.inner())?;
    if !same_hash(&found, root) {
        return Err(PartFault::Whole { found });
    }
    let all = joined(alloc, parts.inner())?;
    Ok(all)
}

/// Joins all parts of a state: the entries of the parts, one after the other. They are those of
/// every map that a store can hold, has the root and agrees with what the parts hold.
///
/// # Errors
///
/// `Order` at the first position whose part has another number or count; then the first fault of a
/// part, as `check_part` gives it; then `Whole` where all entries together have another root; and
/// `Memory`.
pub fn join_parts(
    alloc: Global,
    root: &Hash32,
    parts: &List<Part>,
) -> Result<List<Entry>, PartFault>
    ensures value { Gives memory_fault result (joined_or_fault root.now parts.now) }
    // What is joined has the root.
    ensures root { IfOk result (λ all. (root_of (set_all map.empty all)).hash ≡ root.now) }
    // It is what every map holds that a store can hold, has the root and agrees with the parts, of
    // which there is one at least.
    ensures whole { IfOk result (λ all. 0 < length parts.now → AreAllOfEach root.now parts.now all) }
{
    joined_or_fault(alloc, root, parts)
}
