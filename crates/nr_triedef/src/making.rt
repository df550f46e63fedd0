//! Summaries of nodes, made of those of their children.

ghost use Rattle.std.specs.Prelude.{◌≡◌, ◌==◌, ◌≤◌, ◌+◌, true, false, length, cond, map, sum_by, IfOk};
ghost use Rattle.nr_triedef.specs.Node.{IsNibbles, IsNode, key_part, summary, usage_of};
ghost use Rattle.nr_triedef.specs.Root.{part_usage, usage_below, leaf_with, extension, hash_below, with_front};
ghost use Rattle.nr_triedef.specs.declared.node.Node.TheVariants.{Leaf, Extension};

use crate::hash::{Steps, Summary, bytes_of, hash_node, value_hash};
use crate::node::{MOST_OF_BRANCH, Node, extension_text, leaf_text, node_text, node_text_in};
use crate::part::key_part_in;
use nr_bytes::Writer;
use nr_ids::Hash32;
use std::alloc::{AllocError, Global};
use std::sync::ledger::Ledger;

/// How many bytes these are.
///
/// # Errors
///
/// A length of 2^32 or more counts as want of memory.
pub fn length_of(bytes: &[u8]) -> Result<u32, AllocError>
    ensures { IfOk result (λ n. n ≡ length bytes.now) }
{
    u32::try_from(bytes.len()).map_err(|_| AllocError)
}

/// The sum of two memory usages, in bytes.
///
/// # Errors
///
/// A sum of 2^64 or more counts as want of memory.
pub fn sum_of(a: u64, b: u64) -> Result<u64, AllocError>
    ensures { IfOk result (λ n. n ≡ a + b) }
{
    a.checked_add(b).ok_or(AllocError)
}

/// The memory usage of a node with this part, in bytes, without a value and what is below it.
///
/// # Errors
///
/// A part of 2^32 bytes or more counts as want of memory.
pub fn part_usage(part: &[u8]) -> Result<u64, AllocError>
    ensures { IfOk result (λ n. n ≡ part_usage part.now) }
{
    let length = length_of(part)?;
    Ok(50 + 2 * u64::from(length))
}

// Most parts take fewer bytes.
const PART_ROOM: usize = 64;

/// Memory in which nodes are spelled for their hashes, one after the other.
#[derive(Drop)]
pub struct Scratch {
    part: Writer,
    text: Writer,
}

impl Scratch {
    /// With room for any branch, and for parts as most nodes have them.
    ///
    /// # Errors
    ///
    /// Where memory ran out.
    pub fn new(alloc: Global) -> Result<Scratch, AllocError> {
        let part = Writer::with_room(alloc, PART_ROOM)?;
        let text = Writer::with_room(alloc, MOST_OF_BRANCH)?;
        Ok(Scratch { part, text })
    }
}

/// What a node tells the one above it. It counts as one step.
///
/// # Errors
///
/// Where memory ran out.
pub fn summarize_in<L: Ledger>(
    scratch: &mut Scratch,
    node: &Node,
    usage: u64,
    steps: &mut Steps<L>,
) -> Result<Summary, AllocError>
    requires form { IsNode node.now }
    requires usage { usage ≡ usage_of node.now }
    ensures made { IfOk result (λ s. s ≡ summary node.now) }
    ensures steps { steps.new ≤ steps.old + 1 }
{
    node_text_in(&mut scratch.text, node)?;
    let hash = hash_node(scratch.text.written(), steps);
    Ok(Summary { hash, usage })
}

/// As [`summarize_in`], in memory of its own.
///
/// # Errors
///
/// As of [`summarize_in`].
pub fn summarize<L: Ledger>(
    alloc: Global,
    node: &Node,
    usage: u64,
    steps: &mut Steps<L>,
) -> Result<Summary, AllocError>
    requires form { IsNode node.now }
    requires usage { usage ≡ usage_of node.now }
    ensures made { IfOk result (λ s. s ≡ summary node.now) }
    ensures steps { steps.new ≤ steps.old + 1 }
{
    let text = node_text(alloc, node)?;
    let hash = hash_node(text.inner(), steps);
    Ok(Summary { hash, usage })
}

// The summary of a leaf with this part.
#[tactic(auto, unfolding(crate::specs::Node::node_text))]
fn summarize_leaf<L: Ledger>(
    text: &mut Writer,
    part: &[u8],
    length: u32,
    hash: &Hash32,
    usage: u64,
    steps: &mut Steps<L>,
) -> Result<Summary, AllocError>
    ensures made { IfOk result (λ s. s ≡ summary (Leaf part.now length hash.now usage)) }
    ensures steps { steps.new ≤ steps.old + 1 }
{
    leaf_text(text, part, length, hash, usage)?;
    let hash = hash_node(text.written(), steps);
    Ok(Summary { hash, usage })
}

// The summary of the leaf of a value with this part.
fn leaf_with<L: Ledger>(
    text: &mut Writer,
    part: &[u8],
    value: &[u8],
    steps: &mut Steps<L>,
) -> Result<Summary, AllocError>
    ensures made { IfOk result (λ s. s ≡ summary (leaf_with part.now value.now)) }
    ensures steps { steps.new ≤ steps.old + 1 }
{
    let length = length_of(value)?;
    let usage = sum_of(part_usage(part)?, 50 + u64::from(length))?;
    let hash = value_hash(value);
    summarize_leaf(text, part, length, &hash, usage, steps)
}

/// The leaf of a value, of whose key these nibbles are left. It counts as one step.
///
/// # Errors
///
/// Where memory ran out. A value of 2^32 bytes or more counts as that.
pub fn leaf_in<L: Ledger>(
    scratch: &mut Scratch,
    nibbles: &[u8],
    value: &[u8],
    steps: &mut Steps<L>,
) -> Result<Summary, AllocError>
    requires { IsNibbles nibbles.now }
    ensures made { IfOk result (λ s. s ≡ summary (leaf_with (key_part nibbles.now true) value.now)) }
    ensures steps { steps.new ≤ steps.old + 1 }
{
    key_part_in(&mut scratch.part, nibbles, true)?;
    let made = leaf_with(&mut scratch.text, scratch.part.written(), value, steps)?;
    Ok(made)
}

fn hash_bytes(below: &Summary) -> Hash32
    ensures { result ≡ below.now.hash }
{
    Hash32(bytes_of(&below.hash))
}

// The summary of an extension with this part, over a node of this hash.
#[tactic(auto, unfolding(crate::specs::Node::node_text))]
fn summarize_extension<L: Ledger>(
    text: &mut Writer,
    part: &[u8],
    child: &Hash32,
    usage: u64,
    steps: &mut Steps<L>,
) -> Result<Summary, AllocError>
    ensures made { IfOk result (λ s. s ≡ summary (Extension part.now child.now usage)) }
    ensures steps { steps.new ≤ steps.old + 1 }
{
    extension_text(text, part, child, usage)?;
    let hash = hash_node(text.written(), steps);
    Ok(Summary { hash, usage })
}

// The summary of the extension with this part over a node.
fn extension_with<L: Ledger>(
    text: &mut Writer,
    part: &[u8],
    below: Summary,
    steps: &mut Steps<L>,
) -> Result<Summary, AllocError>
    ensures made { IfOk result (λ s. s ≡ summary (extension part.now below)) }
    ensures steps { steps.new ≤ steps.old + 1 }
{
    let usage = sum_of(part_usage(part)?, below.usage)?;
    let child = hash_bytes(&below);
    summarize_extension(text, part, &child, usage, steps)
}

fn extension<L: Ledger>(
    scratch: &mut Scratch,
    shared: &[u8],
    below: Summary,
    steps: &mut Steps<L>,
) -> Result<Summary, AllocError>
    requires { IsNibbles shared.now }
    ensures made { IfOk result (λ s. s ≡ summary (extension (key_part shared.now false) below)) }
    ensures steps { steps.new ≤ steps.old + 1 }
{
    key_part_in(&mut scratch.part, shared, false)?;
    let made = extension_with(&mut scratch.text, scratch.part.written(), below, steps)?;
    Ok(made)
}

/// A branch behind a front of nibbles, which may be empty. A front that isn't is a node of its own,
/// and counts as one step.
///
/// # Errors
///
/// Where memory ran out; a usage of 2^64 or more counts as that.
pub fn with_front_in<L: Ledger>(
    scratch: &mut Scratch,
    shared: &[u8],
    below: Summary,
    steps: &mut Steps<L>,
) -> Result<Summary, AllocError>
    requires { IsNibbles shared.now }
    ensures made { IfOk result (λ s. s ≡ with_front shared.now below) }
    ensures steps { steps.new ≤ steps.old + cond (length shared.now == 0) 0 1 }
{
    if shared.is_empty() {
        Ok(below)
    } else {
        extension(scratch, shared, below, steps)
    }
}

/// As [`with_front_in`], in memory of its own.
///
/// # Errors
///
/// As of [`with_front_in`].
pub fn with_front<L: Ledger>(
    alloc: Global,
    shared: &[u8],
    below: Summary,
    steps: &mut Steps<L>,
) -> Result<Summary, AllocError>
    requires { IsNibbles shared.now }
    ensures made { IfOk result (λ s. s ≡ with_front shared.now below) }
    ensures steps { steps.new ≤ steps.old + cond (length shared.now == 0) 0 1 }
{
    if shared.is_empty() {
        return Ok(below);
    }
    let mut scratch = Scratch::new(alloc)?;
    with_front_in(&mut scratch, shared, below, steps)
}

fn usage_in(below: &Option<Summary>) -> u64
    ensures { result ≡ usage_below below.now }
{
    match below {
        None => 0,
        Some(child) => child.usage,
    }
}

/// The memory usage of all children of a branch, in bytes.
///
/// # Errors
///
/// A sum of 2^64 or more counts as want of memory.
pub fn usage_below(below: &[Option<Summary>]) -> Result<u64, AllocError>
    ensures { IfOk result (λ n. n ≡ sum_by usage_below below.now) }
{
    let mut usage = 0;
    for child in below {
        usage = sum_of(usage, usage_in(child))?;
    }
    Ok(usage)
}

fn hash_of(below: &Option<Summary>) -> Option<Hash32>
    ensures { result ≡ hash_below below.now }
{
    match below {
        None => None,
        Some(child) => Some(hash_bytes(child)),
    }
}

/// The hashes of a branch's sixteen children.
pub fn child_hashes(below: &[Option<Summary>]) -> [Option<Hash32>; 16]
    requires { length below.now ≡ 16 }
    ensures { result ≡ map hash_below below.now }
{
    let mut children = [None; 16];
    for i in 0..16 {
        children[i] = hash_of(&below[i]);
    }
    children
}
