//! Reading of nodes from their texts.

ghost use Rattle.std.specs.Prelude.{◌≡◌, ◌<◌, true, nat_lt, is_some, IfOk, Ok};
ghost use Rattle.nr_bytes.specs.Answers.{Gives, GivesRead};
ghost use Rattle.nr_triedef.specs.Node.{IsNode, is_flag, is_part, nibble_count, node_text};
ghost use Rattle.nr_triedef.specs.Reading.{Fits, hash_at, is_front, part_at, value_at, leaf_at, extension_at, child_at};
ghost use Rattle.nr_triedef.specs.Reading.{each_at, children_at, branch_at, valued_at, kind_at, node_at};
ghost use Rattle.nr_triedef.specs.declared.node.Node.{Node as Nodes};
ghost use Rattle.nr_triedef.specs.declared.fault.NodeFault.TheVariants.{Memory};

use crate::fault::NodeFault;
use crate::node::Node;
use nr_bytes::{Blob, Reader};
use nr_ids::Hash32;
use std::alloc::Global;

fn is_flag(leaf: bool, first: u8) -> bool
    ensures { result ≡ is_flag leaf first }
{
    if leaf {
        first == 32 || first / 16 == 3
    } else {
        first == 0 || first / 16 == 1
    }
}

fn is_part(leaf: bool, part: &[u8]) -> bool
    ensures { result ≡ is_part leaf part.now }
{
    match part {
        [] => false,
        [first, ..] => is_flag(leaf, *first),
    }
}

fn has_nibble(part: &[u8]) -> bool
    ensures { result ≡ nat_lt 0 (nibble_count part.now) }
{
    match part {
        [] => false,
        [first] => first / 16 % 2 == 1,
        [_, _, ..] => true,
    }
}

fn is_front(part: &[u8]) -> bool
    ensures { result ≡ is_front part.now }
{
    is_part(false, part) && has_nibble(part)
}

fn read_hash(reader: &mut Reader<'_>) -> Result<Hash32, NodeFault>
    ensures { GivesRead Memory result reader.new (hash_at reader.old) }
{
    let bytes = reader.fixed::<32>()?;
    Ok(Hash32(bytes))
}

// The part of a leaf.
fn read_rest(alloc: Global, reader: &mut Reader<'_>) -> Result<Blob, NodeFault>
    ensures { GivesRead Memory result reader.new (part_at (is_part true) reader.old) }
{
    let at = reader.at();
    let part = reader.bytes(alloc)?;
    if !is_part(true, part.inner()) {
        return Err(NodeFault::BadNode { at });
    }
    Ok(part)
}

// The part of an extension.
fn read_front(alloc: Global, reader: &mut Reader<'_>) -> Result<Blob, NodeFault>
    ensures { GivesRead Memory result reader.new (part_at is_front reader.old) }
{
    let at = reader.at();
    let part = reader.bytes(alloc)?;
    if !is_front(part.inner()) {
        return Err(NodeFault::BadNode { at });
    }
    Ok(part)
}

fn read_value(reader: &mut Reader<'_>) -> Result<(u32, Hash32), NodeFault>
    ensures { GivesRead Memory result reader.new (value_at reader.old) }
{
    let length = reader.u32()?;
    let hash = read_hash(reader)?;
    Ok((length, hash))
}

fn read_leaf(alloc: Global, reader: &mut Reader<'_>) -> Result<Node, NodeFault>
    ensures { GivesRead Memory result reader.new (leaf_at reader.old) }
{
    let part = read_rest(alloc, reader)?;
    let (length, hash) = read_value(reader)?;
    let usage = reader.u64()?;
    Ok(Node::Leaf {
        part,
        length,
        hash,
        usage,
    })
}

fn read_extension(alloc: Global, reader: &mut Reader<'_>) -> Result<Node, NodeFault>
    ensures { GivesRead Memory result reader.new (extension_at reader.old) }
{
    let part = read_front(alloc, reader)?;
    let child = read_hash(reader)?;
    let usage = reader.u64()?;
    Ok(Node::Extension { part, child, usage })
}

fn read_child(there: bool, reader: &mut Reader<'_>) -> Result<Option<Hash32>, NodeFault>
    ensures { GivesRead Memory result reader.new (child_at there reader.old) }
{
    if !there {
        return Ok(None);
    }
    let hash = read_hash(reader)?;
    Ok(Some(hash))
}

fn read_each(mut bits: u16, reader: &mut Reader<'_>) -> Result<[Option<Hash32>; 16], NodeFault>
    ensures { GivesRead Memory result reader.new (each_at 16 bits reader.old) }
{
    let mut children = [None; 16];
    for i in 0..16 {
        children[i] = read_child(bits % 2 == 1, reader)?;
        bits /= 2;
    }
    Ok(children)
}

fn read_children(valued: bool, reader: &mut Reader<'_>) -> Result<[Option<Hash32>; 16], NodeFault>
    ensures { GivesRead Memory result reader.new (children_at valued reader.old) }
{
    let at = reader.at();
    let bits = reader.u16()?;
    let fewest = if valued { 1 } else { 2 };
    if bits.count_ones() < fewest {
        return Err(NodeFault::BadNode { at });
    }
    read_each(bits, reader)
}

fn read_branch(value: Option<(u32, Hash32)>, reader: &mut Reader<'_>) -> Result<Node, NodeFault>
    ensures { GivesRead Memory result reader.new (branch_at value reader.old) }
{
    let children = read_children(value.is_some(), reader)?;
    let usage = reader.u64()?;
    Ok(Node::Branch {
        value,
        children,
        usage,
    })
}

fn read_valued(reader: &mut Reader<'_>) -> Result<Node, NodeFault>
    ensures { GivesRead Memory result reader.new (valued_at reader.old) }
{
    let value = read_value(reader)?;
    read_branch(Some(value), reader)
}

// What stands behind a kind, which stands at `at`.
fn read_kind(alloc: Global, kind: u8, at: usize, reader: &mut Reader<'_>) -> Result<Node, NodeFault>
    ensures { GivesRead Memory result reader.new (kind_at at kind reader.old) }
{
    match kind {
        0 => read_leaf(alloc, reader),
        1 => read_extension(alloc, reader),
        2 => read_branch(None, reader),
        3 => read_valued(reader),
        _ => Err(NodeFault::BadNode { at }),
    }
}

#[tactic(auto, unfolding(crate::specs::Reading::node_at))]
fn read_whole(alloc: Global, text: &[u8]) -> Result<Node, NodeFault>
    ensures { Gives Memory result (node_at text.now) }
{
    let mut reader = Reader::new(text);
    let kind = reader.u8()?;
    let node = read_kind(alloc, kind, 0, &mut reader)?;
    reader.end()?;
    Ok(node)
}

/// The node that has this text.
///
/// # Errors
///
/// `BadNode` exactly where the text is no node's, at the first byte of the first field that can't
/// be read. The fields are, in their order: the kind, which is below 4; the length of a part with
/// the part; the length of a value; each hash; the bitmap; the usage; the end. A part is refused
/// that hasn't the form of its kind, or that is an extension's and has no nibble; and a bitmap
/// where a branch has fewer than two of its children and value together. `Memory` where memory ran
/// out.
pub fn read_node(alloc: Global, text: &[u8]) -> Result<Node, NodeFault>
    // What is read is a node with this text.
    ensures found { IfOk result (λ node. IsNode node × Fits node × (text.now ≡ node_text node)) }
    // What has this text is read, unless memory runs out.
    ensures only { (node : Nodes) → IsNode node → Fits node → text.now ≡ node_text node
        → Gives Memory result (Ok node) }
    // Which fault it is.
    ensures exact { Gives Memory result (node_at text.now) }
{
    read_whole(alloc, text)
}
