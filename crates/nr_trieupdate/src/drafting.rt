//! Changes worked into a draft beside the trie, as many at a time as the arena has room for.

ghost use Rattle.std.specs.Prelude.{◌≡◌, ◌<◌, ◌≤◌, length, take, IfOk};
ghost use Rattle.std.specs.FinMap as map;
ghost use Rattle.nr_trienodes.specs.Roots.{IsRoot, IsChanged, Keeps, contents};
ghost use Rattle.nr_trienodes.specs.Merging.{merged, merge_weight};
ghost use Rattle.nr_trieupdate.specs.Room.{most_nodes, IsLevel, IsMoved, IsBounded, AreShort};

use crate::room::{Limits, limits_with, make_room};
use nr_trienodes::{Change, CountedRoot, Nodes, NodesFault};
use std::alloc::AllocError;

// How many of the changes were worked into a draft, and its root.
#[derive(Clone, Copy)]
struct Part {
    count: usize,
    draft: CountedRoot,
}

// Works some changes in, the first ones: all that the arena has room for. That is at least one, so it
// is never full.
fn merge_some(
    nodes: &mut Nodes,
    draft: CountedRoot,
    changes: &[Change<'_>],
) -> Result<Part, AllocError>
    requires root { IsRoot nodes.old draft.root }
    requires count { draft.count ≡ length (map.entries (contents nodes.old draft.root)) }
    requires room { length nodes.old ≤ most_nodes }
    requires some { 0 < length changes.now }
    requires short { AreShort changes.now }
    ensures kept { Keeps nodes.old nodes.new }
    ensures some { IfOk result (λ part. 0 < part.count) }
    ensures within { IfOk result (λ part. part.count ≤ length changes.now) }
    ensures merged { IfOk result (λ part. IsChanged nodes.old nodes.new draft.root part.draft.root
        (merged (take part.count changes.now) (contents nodes.old draft.root))
        (merge_weight (take part.count changes.now))) }
    ensures counted { IfOk result (λ part. part.draft.count
        ≡ length (map.entries (contents nodes.new part.draft.root))) }
{
    let count = nodes.fitting(changes);
    match nodes.merge(draft, &changes[..count]) {
        Ok(draft) => Ok(Part { count, draft }),
        Err(NodesFault::Memory) => Err(AllocError),
        Err(NodesFault::Full { .. }) => unreachable!(),
    }
}

/// The root of a draft with all of these changes, the first one first, whose values have so many bytes.
/// The trie's root stands for what it did. Before changes are worked in, the arena is trimmed where it
/// has grown.
///
/// # Errors
///
/// Where memory ran out.
pub(crate) fn draft_of(
    nodes: &mut Nodes,
    top: &mut CountedRoot,
    limits: &mut Limits,
    changes: &[Change<'_>],
    bytes: usize,
) -> Result<CountedRoot, AllocError>
    requires level { IsLevel nodes.old top.old }
    requires bounded { IsBounded limits.old }
    requires short { AreShort changes.now }
    ensures moved { IsMoved nodes.old nodes.new top.old.root top.new.root }
    ensures same { top.new.count ≡ top.old.count }
    ensures bounded { IsBounded limits.new }
    ensures merged { IfOk result (λ draft. IsChanged nodes.old nodes.new top.old.root draft.root
        (merged changes.now (contents nodes.old top.old.root)) (merge_weight changes.now)) }
    ensures counted { IfOk result (λ draft. draft.count ≡ length (map.entries (contents nodes.new draft.root))) }
{
    let mut draft = *top;
    let mut done = 0;
    'on: while done < changes.len() {
        let next = make_room(nodes, &mut top.root, &mut draft.root, *limits)?;
        *limits = next;
        let part = merge_some(nodes, draft, &changes[done..])?;
        draft = part.draft;
        done += part.count;
    }
    *limits = limits_with(*limits, bytes);
    Ok(draft)
}
