//! Waiting changes, worked into the trie.

ghost use Rattle.std.specs.Prelude.{◌≡◌, ◌+◌, ◌≤◌, ◌∷◌, [], map as map_of, true, is_some, IfOk, OnOk, OnErr};
ghost use Rattle.std.specs.FinMap as map;
ghost use Rattle.nr_triedef.specs.Root.{root_of};
ghost use Rattle.nr_triedef.specs.Stores.{IsSized};
ghost use Rattle.nr_trieupdate.specs.Overlays.{change_of, changes_in, over, joined, debt};
ghost use Rattle.nr_trieupdate.specs.Moving.{Moves};
ghost use Rattle.nr_trieupdate.specs.Room.{AreShort};

use crate::base::Base;
use crate::listing::value_in;
use crate::room::MOST_ENTRIES;
use nr_store::{Lent, PlainStore};
use nr_triedef::{NodeHash, Steps, Store};
use nr_trienodes::Change;
use std::alloc::{AllocError, Global};
use std::sync::ledger::Ledger;

/// A waiting change that gives its key a value.
pub(crate) fn held_of(alloc: Global, value: &[u8]) -> Result<Vec<u8>, AllocError>
    ensures { IfOk result (λ held. held.items ≡ 1 ∷ value.now) }
{
    let mut held = Vec::with_capacity(alloc, value.len() + 1)?;
    held.push(1)?;
    held.extend_from_slice(value)?;
    Ok(held)
}

/// Whether a key is known to be among those counted: a change waits at it, or, where the count can't
/// grow, it is in the trie. Below 2^25 it isn't looked for, and none is.
pub(crate) fn is_counted(base: &Base, changes: &PlainStore, count: usize, key: &[u8]) -> bool
    ensures { result ≡ true → is_some (map.get (joined changes.now.contents base.now.contents) key.now) ≡ true }
{
    if count < MOST_ENTRIES / 2 {
        return false;
    }
    let waiting = changes.get(key);
    if waiting.is_some() {
        return true;
    }
    if count < MOST_ENTRIES {
        return false;
    }
    let found = base.get(key);
    found.is_some()
}

// Changes of the trie, and how many bytes the values of those that wait have.
#[derive(Drop)]
struct Changes<'a> {
    list: Vec<Change<'a>>,
    bytes: usize,
}

// A waiting change as one of the trie.
fn change_of<'a>(waiting: &Lent<'a>) -> Change<'a>
    ensures { result ≡ change_of waiting.now }
{
    Change::of(waiting.key(), value_in(waiting.value()))
}

// Waiting changes as changes of the trie.
fn changes_of<'a>(alloc: Global, waiting: &[Lent<'a>]) -> Result<Vec<Change<'a>>, AllocError>
    ensures { IfOk result (λ changes. changes.items ≡ map_of change_of waiting.now) }
{
    let mut changes = Vec::with_capacity(alloc, waiting.len())?;
    for waits in waiting {
        changes.push(change_of(waits))?;
    }
    Ok(changes)
}

fn bytes_of(waiting: &[Lent<'_>]) -> usize {
    let mut bytes: usize = 0;
    for waits in waiting {
        bytes = bytes.saturating_add(waits.value().len());
    }
    bytes
}

// All waiting changes as changes of the trie, in the order of their keys.
#[tactic(auto, using(crate::proofs::Overlays::short_changes))]
fn changes_in(alloc: Global, waiting: &PlainStore) -> Result<Changes<'_>, AllocError>
    ensures changes { IfOk result (λ changes. changes.list.items ≡ changes_in waiting.now.contents) }
    ensures short { AreShort (changes_in waiting.now.contents) }
{
    // It tells that what waits keeps within the sizes.
    waiting.sizes();
    let entries = waiting.entries()?;
    let list = changes_of(alloc, &entries)?;
    let bytes = bytes_of(&entries);
    Ok(Changes { list, bytes })
}

// Works all waiting changes into the trie.
fn work_in(alloc: Global, base: &mut Base, waiting: &PlainStore) -> Result<(), AllocError>
    requires { IsSized (over waiting.now.contents base.old.contents) }
    ensures ok { OnOk result (base.new.contents ≡ over waiting.now.contents base.old.contents) }
    ensures err { OnErr result (base.new.contents ≡ base.old.contents) }
    ensures unhashed { OnOk result (base.new.unhashed ≤ base.old.unhashed + debt waiting.now.contents) }
    ensures less { OnErr result (base.new.unhashed ≤ base.old.unhashed) }
{
    let changes = changes_in(alloc, waiting)?;
    base.merge(&changes.list, changes.bytes)?;
    Ok(())
}

/// Moves all waiting changes into the trie, where no checkpoint of theirs stands.
///
/// # Errors
///
/// Where memory ran out. All of them wait on then, and what is held is the same.
pub(crate) fn settle(
    alloc: Global,
    base: &mut Base,
    waiting: &mut PlainStore,
) -> Result<(), AllocError>
    requires marks { waiting.old.marks ≡ [] }
    requires sized { IsSized (over waiting.old.contents base.old.contents) }
    ensures moves { Moves base.old base.new waiting.old waiting.new }
    ensures none { OnOk result (waiting.new.contents ≡ map.empty) }
{
    work_in(alloc, base, waiting)?;
    waiting.clear();
    Ok(())
}

/// The root of what is held once the waiting changes are made. They stay as they are.
///
/// # Errors
///
/// Where memory ran out.
pub(crate) fn root_over<L: Ledger>(
    alloc: Global,
    base: &mut Base,
    waiting: &PlainStore,
    steps: &mut Steps<L>,
) -> Result<NodeHash, AllocError>
    ensures root { IfOk result (λ root. root ≡ (root_of (over waiting.now.contents base.old.contents)).hash) }
    ensures contents { base.new.contents ≡ base.old.contents }
    ensures unhashed { base.new.unhashed ≤ base.old.unhashed }
    ensures steps { steps.new ≤ steps.old + (base.old.unhashed + debt waiting.now.contents) }
{
    let changes = changes_in(alloc, waiting)?;
    let root = base.root_with(&changes.list, changes.bytes, steps)?;
    Ok(root)
}
