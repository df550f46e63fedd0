//! Nodes of the trie: what each tells the one above it.

ghost use Rattle.std.specs.Prelude.{◌≡◌, ◌≤◌, ◌<◌, false, length, map, sum_by, IfOk};
ghost use Rattle.std.specs.Bool.{OnTrue};
ghost use Rattle.nr_triedef.specs.Node.{IsNibbles, IsNode, key_part, links, summary, usage_of};
ghost use Rattle.nr_triedef.specs.Root.{extension, hash_below, usage_below, with_front};
ghost use Rattle.nr_remake.specs.Marks.{alone, branch_with, field, field_usage, leaf_of};

use nr_ids::Hash32;
use nr_triedef::{Node, key_part, node_text, part_usage, sum_of, value_hash};
use nr_walk::Known;
use std::alloc::{AllocError, Global};
use std::marker::Model;

/// The hash of a top node, and the memory usage of all nodes at and below it.
#[derive(Clone, Copy)]
pub(crate) struct Top {
    pub(crate) hash: Hash32,
    pub(crate) usage: u64,
}

impl Model for Top {
    ghost use Rattle.nr_triedef.specs.declared.hash.Summary.{Summary};

    ghost Value = { Summary };

    ghost view = { λ t. record { hash = t.hash; usage = t.usage } };

    ghost inverse = { λ s. record { hash = s.hash; usage = s.usage } };
}

fn are_nibbles(path: &[u8]) -> bool
    ensures { OnTrue result (IsNibbles path.now) }
{
    path.iter().all(|nibble| *nibble < 16)
}

// What a node tells the one above it.
fn summarize(alloc: Global, node: &Node, usage: u64) -> Result<Top, AllocError>
    requires form { IsNode node.now }
    requires usage { usage ≡ usage_of node.now }
    ensures { IfOk result (λ s. s ≡ summary node.now) }
{
    let text = node_text(alloc, node)?;
    Ok(Top {
        hash: value_hash(text.inner()),
        usage,
    })
}

// The leaf of a value that is known by its length and hash.
fn leaf(alloc: Global, path: &[u8], length: u32, hash: &Hash32) -> Result<Top, AllocError>
    requires { IsNibbles path.now }
    ensures { IfOk result (λ s. s ≡ summary (leaf_of path.now length hash.now)) }
{
    let part = key_part(alloc, path, true)?;
    let usage = sum_of(part_usage(part.inner())?, 50 + u64::from(length))?;
    let node = Node::Leaf {
        part,
        length,
        hash: *hash,
        usage,
    };
    summarize(alloc, &node, usage)
}

fn extension(alloc: Global, shared: &[u8], below: Top) -> Result<Top, AllocError>
    requires small { IsNibbles shared.now }
    requires some { 0 < length shared.now }
    ensures { IfOk result (λ s. s ≡ summary (extension (key_part shared.now false) below)) }
{
    let part = key_part(alloc, shared, false)?;
    let usage = sum_of(part_usage(part.inner())?, below.usage)?;
    let node = Node::Extension {
        part,
        child: below.hash,
        usage,
    };
    summarize(alloc, &node, usage)
}

/// A branch behind a front, which may be empty. A front that has something other than nibbles, which
/// no walk gives, counts as want of memory.
pub(crate) fn with_front(alloc: Global, shared: &[u8], below: Top) -> Result<Top, AllocError>
    ensures { IfOk result (λ s. s ≡ with_front shared.now below) }
{
    if shared.is_empty() {
        return Ok(below);
    }
    if !are_nibbles(shared) {
        return Err(AllocError);
    }
    extension(alloc, shared, below)
}

/// What stands alone behind a path. A path that has something other than nibbles, which no walk
/// gives, counts as want of memory.
pub(crate) fn alone(alloc: Global, path: &[u8], known: &Known) -> Result<Top, AllocError>
    ensures { IfOk result (λ s. s ≡ alone path.now known.now) }
{
    match known {
        Known::Value { length, hash } => {
            if !are_nibbles(path) {
                return Err(AllocError);
            }
            leaf(alloc, path, *length, hash)
        }
        Known::Trie { hash, usage } => with_front(
            alloc,
            path,
            Top {
                hash: *hash,
                usage: *usage,
            },
        ),
    }
}

/// The value of a branch, where it has one, and its memory usage.
pub(crate) fn field(known: &Known) -> Option<(u32, Hash32)>
    ensures { result ≡ field known.now }
{
    match known {
        Known::Value { length, hash } => Some((*length, *hash)),
        Known::Trie { .. } => None,
    }
}

fn field_usage(value: &Option<(u32, Hash32)>) -> u64
    ensures { result ≡ field_usage value.now }
{
    match value {
        None => 0,
        Some((length, _)) => 50 + u64::from(*length),
    }
}

fn usage_of(below: &Option<Top>) -> u64
    ensures { result ≡ usage_below below.now }
{
    match below {
        None => 0,
        Some(child) => child.usage,
    }
}

fn usage_below(below: &[Option<Top>]) -> Result<u64, AllocError>
    ensures { IfOk result (λ n. n ≡ sum_by usage_below below.now) }
{
    let mut usage = 0;
    for child in below {
        usage = sum_of(usage, usage_of(child))?;
    }
    Ok(usage)
}

fn hash_of(below: &Option<Top>) -> Option<Hash32>
    ensures { result ≡ hash_below below.now }
{
    match below {
        None => None,
        Some(child) => Some(child.hash),
    }
}

fn hashes(below: &[Option<Top>]) -> [Option<Hash32>; 16]
    requires { length below.now ≡ 16 }
    ensures { result ≡ map hash_below below.now }
{
    let mut children = [None; 16];
    for i in 0..16 {
        children[i] = hash_of(&below[i]);
    }
    children
}

fn count(children: &[Option<Hash32>]) -> usize
    ensures { result ≡ count_by is_some children.now }
{
    children.iter().filter(|child| child.is_some()).count()
}

ghost use Rattle.std.specs.Prelude.{count_by, is_some};

fn has_two(value: &Option<(u32, Hash32)>, children: &[Option<Hash32>]) -> bool
    ensures { OnTrue result (2 ≤ links value.now children.now) }
{
    let count = count(children);
    if value.is_some() {
        count >= 1
    } else {
        count >= 2
    }
}

/// The branch over sixteen children. One with fewer than two of its children and value together,
/// which no walk gives, counts as want of memory.
pub(crate) fn branch(
    alloc: Global,
    value: Option<(u32, Hash32)>,
    below: &[Option<Top>],
) -> Result<Top, AllocError>
    requires { length below.now ≡ 16 }
    ensures { IfOk result (λ s. s ≡ summary (branch_with value below.now)) }
{
    let children = hashes(below);
    if !has_two(&value, &children) {
        return Err(AllocError);
    }
    let own = sum_of(50, field_usage(&value))?;
    let usage = sum_of(own, usage_below(below)?)?;
    let node = Node::Branch {
        value,
        children,
        usage,
    };
    summarize(alloc, &node, usage)
}
