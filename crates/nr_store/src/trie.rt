//! The trie of keys and values, without its nodes being kept.

ghost use Rattle.std.specs.Prelude.{◌≡◌, ◌≤◌, ◌<◌, length, Some, IfOk};
ghost use Rattle.nr_store.specs.Tries.{whole};

use crate::fork::{Fork, Forks};
use crate::nodes::leaf;
use crate::span::Span;
use nr_triedef::{Steps, Summary};
use std::alloc::{AllocError, Global};
use std::sync::ledger::Ledger;

// The trie of several keys. Branches that wait for a child stand in a list of their own, so the
// machine's stack doesn't grow with the keys.
fn several<L: Ledger>(
    alloc: Global,
    keys: Span<'_>,
    steps: &mut Steps<L>,
) -> Result<Summary, AllocError>
    requires { 2 ≤ length keys }
    ensures { IfOk result (λ found. Some found ≡ whole keys.entry) }
{
    let mut above = Forks::new(alloc);
    let mut fork = Fork::of(alloc, keys);
    'made: loop {
        if fork.is_full() {
            let made = fork.close(alloc, steps)?;
            match above.pop() {
                None => return Ok(made),
                Some(parent) => {
                    fork = parent;
                    fork.give(Some(made))?;
                }
            }
        } else {
            let child = fork.next();
            if child.len() < 2 {
                fork.give(few(alloc, &child, steps)?)?;
            } else {
                above.push(fork)?;
                fork = Fork::of(alloc, child);
            }
        }
    }
}

// The trie of at most one key.
fn few<L: Ledger>(
    alloc: Global,
    keys: &Span<'_>,
    steps: &mut Steps<L>,
) -> Result<Option<Summary>, AllocError>
    requires { length keys.now < 2 }
    ensures { IfOk result (λ found. found ≡ whole keys.now) }
{
    if keys.len() == 0 {
        return Ok(None);
    }
    let found = leaf(alloc, keys, steps)?;
    Ok(Some(found))
}

/// The hash and usage of the trie of these keys; none where there are no keys. Each node counts as
/// one step.
///
/// Besides memory, the refusal is for a value of 2^32 bytes or more, for a key whose part has so
/// many, and for a usage that passes u64.
pub(crate) fn trie<L: Ledger>(
    alloc: Global,
    keys: Span<'_>,
    steps: &mut Steps<L>,
) -> Result<Option<Summary>, AllocError>
    ensures { IfOk result (λ found. found ≡ whole keys.entry) }
{
    if keys.len() < 2 {
        return few(alloc, &keys, steps);
    }
    let found = several(alloc, keys, steps)?;
    Ok(Some(found))
}
