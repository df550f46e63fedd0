//! Nodes of the trie of entries, and what each tells the node above it.

ghost use Rattle.std.specs.Prelude.{◌≡◌, ◌<◌, false, length, map, sum_by, IfOk};
ghost use Rattle.nr_triedef.specs.Node.{IsNibbles, IsNode, key_part, summary};
ghost use Rattle.nr_triedef.specs.Root.{value_here, value_usage, usage_below, leaf, extension, value_field, hash_below};
ghost use Rattle.nr_triedef.specs.Root.{branch};
ghost use Rattle.nr_store.specs.Tries.{first_path};

use crate::hashes::Hashes;
use nr_ids::Hash32;
use nr_store::Span;
use nr_triedef::{Node, key_part, length_of, node_text, part_usage, sum_of, usage_of, value_hash};
use std::alloc::{AllocError, Global};
use std::marker::Model;

/// What a trie tells the node above it: the hash of its top node, and the memory usage of all its
/// nodes. Contracts see it as the pair that the definition of the root has.
#[derive(Clone, Copy, Debug)]
pub struct Top {
    hash: Hash32,
    usage: u64,
}

impl Model for Top {
    ghost use Rattle.nr_triedef.specs.declared.hash.Summary.{Summary};

    ghost Value = { Summary };

    ghost view = { λ t. record { hash = t.hash; usage = t.usage } };

    ghost inverse = { λ s. record { hash = s.hash; usage = s.usage } };
}

impl Top {
    /// The hash of the top node.
    pub fn hash(self) -> Hash32
        ensures { result ≡ self.hash }
    {
        self.hash
    }

    /// The memory usage of all nodes.
    pub fn usage(self) -> u64
        ensures { result ≡ self.usage }
    {
        self.usage
    }
}

/// What a node tells the one above it.
pub(crate) fn top_of(alloc: Global, node: &Node) -> Result<Top, AllocError>
    requires { IsNode node.now }
    ensures { IfOk result (λ t. t ≡ summary node.now) }
{
    let text = node_text(alloc, node)?;
    Ok(Top {
        hash: value_hash(text.inner()),
        usage: usage_of(node),
    })
}

/// The leaf of a key that stands alone.
pub(crate) fn leaf(alloc: Global, keys: &Span<'_>, hashes: &mut Hashes) -> Result<Node, AllocError>
    requires { 0 < length keys.now }
    ensures value { IfOk result (λ node. node ≡ leaf (first_path keys.now)) }
    ensures form { IfOk result IsNode }
{
    let key = keys.first_key(alloc)?;
    let part = key_part(alloc, key.inner(), true)?;
    let value = keys.first_value();
    let length = length_of(value)?;
    let hash = hashes.hash(value)?;
    let usage = sum_of(part_usage(part.inner())?, 50 + u64::from(length))?;
    Ok(Node::Leaf {
        part,
        length,
        hash,
        usage,
    })
}

/// The extension over a branch.
pub(crate) fn extension(alloc: Global, shared: &[u8], below: Top) -> Result<Node, AllocError>
    requires small { IsNibbles shared.now }
    requires some { 0 < length shared.now }
    ensures value { IfOk result (λ node. node ≡ extension (key_part shared.now false) below) }
    ensures form { IfOk result IsNode }
{
    let part = key_part(alloc, shared, false)?;
    let usage = sum_of(part_usage(part.inner())?, below.usage())?;
    Ok(Node::Extension {
        part,
        child: below.hash(),
        usage,
    })
}

// The value whose key ends here, as a branch has it, and its memory usage.
fn value_at(
    keys: &Span<'_>,
    hashes: &mut Hashes,
) -> Result<(Option<(u32, Hash32)>, u64), AllocError>
    ensures { IfOk result (λ v. v ≡ (value_field (value_here keys.now), value_usage (value_here keys.now))) }
{
    match keys.value_here() {
        None => Ok((None, 0)),
        Some(value) => {
            let length = length_of(value)?;
            let hash = hashes.hash(value)?;
            Ok((Some((length, hash)), 50 + u64::from(length)))
        }
    }
}

fn usage_in(below: &Option<Top>) -> u64
    ensures { result ≡ usage_below below.now }
{
    match below {
        None => 0,
        Some(child) => child.usage(),
    }
}

fn usage_below(below: &[Option<Top>]) -> Result<u64, AllocError>
    ensures { IfOk result (λ n. n ≡ sum_by usage_below below.now) }
{
    let mut usage = 0;
    for child in below {
        usage = sum_of(usage, usage_in(child))?;
    }
    Ok(usage)
}

fn hash_in(below: &Option<Top>) -> Option<Hash32>
    ensures { result ≡ hash_below below.now }
{
    match below {
        None => None,
        Some(child) => Some(child.hash()),
    }
}

fn child_hashes(below: &[Option<Top>]) -> [Option<Hash32>; 16]
    requires { length below.now ≡ 16 }
    ensures { result ≡ map hash_below below.now }
{
    let mut children = [None; 16];
    for i in 0..16 {
        children[i] = hash_in(&below[i]);
    }
    children
}

/// The branch of what is left of some keys, over its sixteen children.
pub(crate) fn branch(
    keys: &Span<'_>,
    below: &[Option<Top>],
    hashes: &mut Hashes,
) -> Result<Node, AllocError>
    requires { length below.now ≡ 16 }
    ensures { IfOk result (λ node. node ≡ branch (value_here keys.now) below.now) }
{
    let (value, own) = value_at(keys, hashes)?;
    let own = sum_of(50, own)?;
    let usage = sum_of(own, usage_below(below)?)?;
    Ok(Node::Branch {
        value,
        children: child_hashes(below),
        usage,
    })
}
