//! Nodes of the trie: their hashes and usages, without the nodes being kept.

ghost use Rattle.std.specs.Prelude.{◌≡◌, ◌<◌, ◌≤◌, length, map, IfOk};
ghost use Rattle.nr_triedef.specs.Node.{links, summary};
ghost use Rattle.nr_triedef.specs.Root.{value_here, value_usage, leaf, value_field, hash_below, branch};
ghost use Rattle.nr_store.specs.Tries.{first_path};

use crate::span::Span;
use nr_ids::Hash32;
use nr_triedef::{
    Node, Steps, Summary, child_hashes, key_part, length_of, part_usage, sum_of, summarize,
    usage_below, value_hash,
};
use std::alloc::{AllocError, Global};
use std::sync::ledger::Ledger;

/// The leaf of a key that stands alone.
pub(crate) fn leaf<L: Ledger>(
    alloc: Global,
    keys: &Span<'_>,
    steps: &mut Steps<L>,
) -> Result<Summary, AllocError>
    requires { 0 < length keys.now }
    ensures { IfOk result (λ s. s ≡ summary (leaf (first_path keys.now))) }
{
    let key = keys.first_key(alloc)?;
    let part = key_part(alloc, key.inner(), true)?;
    let value = keys.first_value();
    let length = length_of(value)?;
    let usage = sum_of(part_usage(part.inner())?, 50 + u64::from(length))?;
    let hash = value_hash(value);
    let node = Node::Leaf {
        part,
        length,
        hash,
        usage,
    };
    summarize(alloc, &node, usage, steps)
}

// The value whose key ends here, as a branch has it, and its memory usage.
fn value_at(keys: &Span<'_>) -> Result<(Option<(u32, Hash32)>, u64), AllocError>
    ensures { IfOk result (λ v. v ≡ (value_field (value_here keys.now), value_usage (value_here keys.now))) }
{
    match keys.value_here() {
        None => Ok((None, 0)),
        Some(value) => {
            let length = length_of(value)?;
            Ok((Some((length, value_hash(value))), 50 + u64::from(length)))
        }
    }
}

/// The branch of what is left of some keys, over its sixteen children.
pub(crate) fn branch<L: Ledger>(
    alloc: Global,
    keys: &Span<'_>,
    below: &[Option<Summary>],
    steps: &mut Steps<L>,
) -> Result<Summary, AllocError>
    requires all { length below.now ≡ 16 }
    requires form { 2 ≤ links (value_field (value_here keys.now)) (map hash_below below.now) }
    ensures { IfOk result (λ s. s ≡ summary (branch (value_here keys.now) below.now)) }
{
    let (value, own) = value_at(keys)?;
    let own = sum_of(50, own)?;
    let usage = sum_of(own, usage_below(below)?)?;
    let node = Node::Branch {
        value,
        children: child_hashes(below),
        usage,
    };
    summarize(alloc, &node, usage, steps)
}
