//! The trie of entries, all of whose nodes are listed.

ghost use Rattle.std.specs.Prelude.{◌≡◌, ◌≤◌, ◌<◌, ◌++◌, length, reverse, Some, IfOk, OnOk};
ghost use Rattle.nr_store.specs.Tries.{CanWalk, whole};
ghost use Rattle.nr_trielist.specs.Growing.{all_nodes};

use crate::fork::{Fork, Forks};
use crate::hashes::Hashes;
use crate::making::{Top, leaf, top_of};
use nr_bytes::List;
use nr_store::Span;
use nr_triedef::Node;
use std::alloc::{AllocError, Global};

// The trie of several keys. Branches that wait for a child stand in a list of their own, so the
// machine's stack doesn't grow with the keys.
fn several(
    alloc: Global,
    keys: Span<'_>,
    nodes: &mut Vec<Node>,
    hashes: &mut Hashes,
) -> Result<Top, AllocError>
    requires { 2 ≤ length keys }
    ensures top { IfOk result (λ found. Some found ≡ whole keys.entry) }
    ensures nodes { OnOk result (nodes.new.items ≡ nodes.old.items ++ reverse (all_nodes keys.entry)) }
{
    let mut above = Forks::new(alloc);
    let mut fork = Fork::of(alloc, keys);
    'made: loop {
        if fork.is_full() {
            let made = fork.close(alloc, nodes, hashes)?;
            match above.pop() {
                None => return Ok(made),
                Some(parent) => {
                    fork = parent;
                    fork.give(Some(made))?;
                }
            }
        } else {
            let child = fork.next();
            if child.len() < 2 {
                fork.give(few(alloc, &child, nodes, hashes)?)?;
            } else {
                above.push(fork)?;
                fork = Fork::of(alloc, child);
            }
        }
    }
}

// The trie of at most one key.
fn few(
    alloc: Global,
    keys: &Span<'_>,
    nodes: &mut Vec<Node>,
    hashes: &mut Hashes,
) -> Result<Option<Top>, AllocError>
    requires { length keys.now < 2 }
    ensures top { IfOk result (λ found. found ≡ whole keys.now) }
    ensures nodes { OnOk result (nodes.new.items ≡ nodes.old.items ++ reverse (all_nodes keys.now)) }
{
    if keys.len() == 0 {
        return Ok(None);
    }
    let node = leaf(alloc, keys, hashes)?;
    let top = top_of(alloc, &node)?;
    nodes.push(node)?;
    Ok(Some(top))
}

// The hash and usage of the trie of these keys; none where there are no keys. Its nodes are listed,
// the last of them depth first is the first.
fn grow(
    alloc: Global,
    keys: Span<'_>,
    nodes: &mut Vec<Node>,
    hashes: &mut Hashes,
) -> Result<Option<Top>, AllocError>
    ensures top { IfOk result (λ found. found ≡ whole keys.entry) }
    ensures nodes { OnOk result (nodes.new.items ≡ nodes.old.items ++ reverse (all_nodes keys.entry)) }
{
    if keys.len() < 2 {
        return few(alloc, &keys, nodes, hashes);
    }
    let found = several(alloc, keys, nodes, hashes)?;
    Ok(Some(found))
}

/// All nodes of the trie of these keys depth first, children in the order of their nibbles, and what
/// the first of them tells: the root's hash and the memory usage of all; none where there are no
/// keys. Long values whose hashes are kept aren't hashed again.
///
/// # Errors
///
/// Where memory ran out; a value of 2^32 bytes or more, a key whose part has so many, or a usage that
/// passes u64, counts as that.
pub fn list_nodes(
    alloc: Global,
    keys: Span<'_>,
    hashes: &mut Hashes,
) -> Result<(Option<Top>, List<Node>), AllocError>
    ensures top { IfOk result (λ r. r.0 ≡ whole keys.entry) }
    ensures nodes { IfOk result (λ r. r.1 ≡ all_nodes keys.entry) }
    ensures order { CanWalk keys.entry }
{
    let mut nodes = Vec::new(alloc);
    let top = grow(alloc, keys, &mut nodes, hashes)?;
    nodes.reverse();
    Ok((top, List::of(nodes)))
}
