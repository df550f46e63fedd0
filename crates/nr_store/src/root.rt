//! The root of what the slots hold.

ghost use Rattle.std.specs.Prelude.{◌≡◌, IfOk};
ghost use Rattle.std.specs.FinMap as map;
ghost use Rattle.nr_triedef.specs.Root.{paths, root_of};
ghost use Rattle.nr_store.specs.Plain.{held_in};
ghost use Rattle.nr_store.specs.Tries.{CanWalk};

use crate::slots::Slots;
use crate::span::{Entry, Span};
use crate::trie::trie;
use nr_triedef::{NodeHash, Steps, empty_root};
use std::alloc::{AllocError, Global};
use std::sync::ledger::Ledger;

fn entries_of(alloc: Global, slots: &Slots) -> Result<Vec<Entry<'_>>, AllocError>
    ensures value { IfOk result (λ entries. entries.items ≡ paths (map.entries (held_in slots.now.entries))) }
    ensures order { IfOk result (λ entries. CanWalk entries.items) }
{
    let mut entries = Vec::new(alloc);
    for (key, slot) in slots.iter() {
        if let Some(value) = slot {
            entries.push(Entry::of(key, value))?;
        }
    }
    Ok(entries)
}

/// The root of the trie of the slots that have a value: 32 zero bytes where there are none. Each
/// node of the trie counts as one step.
///
/// Besides memory, the refusal is for a value of 2^32 bytes or more, for a key whose part has so
/// many, and for a usage that passes u64.
#[tactic(auto, unfolding(nr_triedef::specs::Root::root_of_entries))]
pub(crate) fn root<L: Ledger>(
    alloc: Global,
    slots: &Slots,
    steps: &mut Steps<L>,
) -> Result<NodeHash, AllocError>
    ensures { IfOk result (λ root. root ≡ (root_of (held_in slots.now.entries)).hash) }
{
    let entries = entries_of(alloc, slots)?;
    let found = trie(alloc, Span::of(&entries), steps)?;
    match found {
        None => Ok(empty_root()),
        Some(summary) => Ok(summary.hash),
    }
}
