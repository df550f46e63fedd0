//! Nodes made in place of others, so that each is a leaf or has two links.

ghost use Rattle.std.specs.Prelude.{◌≡◌, ◌<◌, ◌≤◌, ◌+◌, ◌++◌, ◌∷◌, ℕ, length, take, drop, slice_set, is_some, true};
ghost use Rattle.std.specs.Prelude.{Some, IfOk};
ghost use Rattle.nr_triedef.specs.Node.{IsNibbles};
ghost use Rattle.nr_trienodes.specs.Shape.{shape_at, child};
ghost use Rattle.nr_trienodes.specs.Tries.{IsLinked};
ghost use Rattle.nr_trienodes.specs.Views.{Sound, IsIn};
ghost use Rattle.nr_trienodes.specs.Turns.{AreSteps, Extends, Settles, Sprouts, Climbs, LinksSo, left};

use crate::node_bytes::NodeBytes;
use crate::nodes::Nodes;
use crate::packed::Row;
use crate::turn::{Way, rest_of};
use std::alloc::AllocError;

/// How many children a row has.
#[derive(Clone, Copy, Debug)]
pub(crate) enum Links {
    Bare,
    Single { nibble: u8, child: u32 },
    Several,
}

#[tactic(auto, using(crate::proofs::Settled::links_more, crate::proofs::Settled::links_first, crate::proofs::Settled::links_second, crate::proofs::Settled::links_all))]
pub(crate) fn links_of(row: &Row) -> Links
    ensures { LinksSo row.now result }
{
    let mut links = Links::Bare;
    for nibble in 0..16u8 {
        if let Some(child) = row[nibble as usize] {
            match links {
                Links::Bare => links = Links::Single { nibble, child },
                _ => return Links::Several,
            }
        }
    }
    links
}

// A node of these, which have a value alone or two links.
#[tactic(auto, using(crate::proofs::Settled::adds_settles, crate::proofs::Settled::adds_extends, crate::proofs::Sets::extends_refl))]
fn place(
    nodes: &mut Nodes,
    part: Vec<u8>,
    value: Option<NodeBytes>,
    row: Row,
) -> Result<u32, AllocError>
    requires small { IsNibbles part.items }
    requires linked { IsLinked value row }
    requires back { (x c : ℕ) → child row x ≡ Some c → c < length nodes.old }
    ensures few { length nodes.new ≤ length nodes.old + 1 }
    ensures grows { Extends nodes.old nodes.new }
    ensures settled { IfOk result (λ id. Settles nodes.old nodes.new part.items value row (Some id)) }
{
    let id = nodes.push(part, value, row)?;
    Ok(id)
}

/// The node with a front before its part.
pub(crate) fn join(
    nodes: &mut Nodes,
    front: Vec<u8>,
    nibble: u8,
    child: u32,
) -> Result<u32, AllocError>
    requires front { IsNibbles front.items }
    requires nibble { nibble < 16 }
    requires child { child < length nodes.old }
    ensures few { length nodes.new ≤ length nodes.old + 1 }
    ensures grows { Extends nodes.old nodes.new }
    ensures joined { IfOk result (λ id. Settles nodes.old nodes.new
        (front.items ++ nibble ∷ (shape_at nodes.old child).part) (shape_at nodes.old child).value
        (shape_at nodes.old child).below (Some id)) }
    ensures sound { Sound nodes.old }
{
    let _count = nodes.count();
    let mut part = front;
    part.push(nibble)?;
    part.extend_from_slice(nodes.part(child))?;
    let value = nodes.value_again(child)?;
    let row = nodes.row(child);
    let id = place(nodes, part, value, row)?;
    Ok(id)
}

/// The node that stands for what one of these would: none, a leaf, a branch, or the only child with
/// the part before its own.
pub(crate) fn settle(
    nodes: &mut Nodes,
    part: Vec<u8>,
    value: Option<NodeBytes>,
    row: Row,
) -> Result<Option<u32>, AllocError>
    requires small { IsNibbles part.items }
    requires back { (x c : ℕ) → child row x ≡ Some c → c < length nodes.old }
    ensures few { length nodes.new ≤ length nodes.old + 1 }
    ensures grows { Extends nodes.old nodes.new }
    ensures settled { IfOk result (λ id. Settles nodes.old nodes.new part.items value row id) }
{
    if value.is_some() {
        let id = place(nodes, part, value, row)?;
        return Ok(Some(id));
    }
    match links_of(&row) {
        Links::Bare => Ok(None),
        Links::Single { nibble, child } => {
            let id = join(nodes, part, nibble, child)?;
            Ok(Some(id))
        }
        Links::Several => {
            let id = place(nodes, part, value, row)?;
            Ok(Some(id))
        }
    }
}

// The node with another child in place of one.
#[tactic(auto, using(crate::proofs::Settled::adds_settles, crate::proofs::Settled::adds_extends, crate::proofs::Sets::extends_refl))]
fn relink(nodes: &mut Nodes, node: u32, nibble: u8, below: u32) -> Result<u32, AllocError>
    requires node { node < length nodes.old }
    requires nibble { nibble < 16 }
    requires below { below < length nodes.old }
    requires some { is_some (child (shape_at nodes.old node).below nibble) ≡ true }
    ensures few { length nodes.new ≤ length nodes.old + 1 }
    ensures grows { Extends nodes.old nodes.new }
    ensures settled { IfOk result (λ id. Settles nodes.old nodes.new (shape_at nodes.old node).part
        (shape_at nodes.old node).value (slice_set (shape_at nodes.old node).below nibble (Some below)) (Some id)) }
{
    let id = nodes.relink(node, nibble, below)?;
    Ok(id)
}

// The node with a child more or less.
fn remake(
    nodes: &mut Nodes,
    node: u32,
    nibble: u8,
    below: Option<u32>,
) -> Result<Option<u32>, AllocError>
    requires node { node < length nodes.old }
    requires nibble { nibble < 16 }
    requires below { IsIn (length nodes.old) below }
    ensures few { length nodes.new ≤ length nodes.old + 1 }
    ensures grows { Extends nodes.old nodes.new }
    ensures settled { IfOk result (λ id. Settles nodes.old nodes.new (shape_at nodes.old node).part
        (shape_at nodes.old node).value (slice_set (shape_at nodes.old node).below nibble below) id) }
{
    let alloc = nodes.allocator();
    let part = Vec::from_slice(alloc, nodes.part(node))?;
    let value = nodes.value_again(node)?;
    let mut row = nodes.row(node);
    row[nibble as usize] = below;
    let id = settle(nodes, part, value, row)?;
    Ok(id)
}

/// The node with another child.
pub(crate) fn replace_child(
    nodes: &mut Nodes,
    node: u32,
    nibble: u8,
    below: Option<u32>,
) -> Result<Option<u32>, AllocError>
    requires node { node < length nodes.old }
    requires nibble { nibble < 16 }
    requires below { IsIn (length nodes.old) below }
    ensures few { length nodes.new ≤ length nodes.old + 1 }
    ensures grows { Extends nodes.old nodes.new }
    ensures settled { IfOk result (λ id. Settles nodes.old nodes.new (shape_at nodes.old node).part
        (shape_at nodes.old node).value (slice_set (shape_at nodes.old node).below nibble below) id) }
{
    let Some(child) = below else {
        return remake(nodes, node, nibble, None);
    };
    if nodes.child(node, nibble).is_none() {
        return remake(nodes, node, nibble, Some(child));
    }
    let id = relink(nodes, node, nibble, child)?;
    Ok(Some(id))
}

/// The node with another value.
pub(crate) fn replace_value(
    nodes: &mut Nodes,
    node: u32,
    value: Option<NodeBytes>,
) -> Result<Option<u32>, AllocError>
    requires { node < length nodes.old }
    ensures few { length nodes.new ≤ length nodes.old + 1 }
    ensures grows { Extends nodes.old nodes.new }
    ensures settled { IfOk result (λ id. Settles nodes.old nodes.new (shape_at nodes.old node).part value
        (shape_at nodes.old node).below id) }
{
    let alloc = nodes.allocator();
    let part = Vec::from_slice(alloc, nodes.part(node))?;
    let row = nodes.row(node);
    let id = settle(nodes, part, value, row)?;
    Ok(id)
}

/// The root over another last node of a way.
#[tactic(auto, using(crate::proofs::Climbing::climbed, crate::proofs::Climbing::first_step, crate::proofs::Climbing::rises_first, crate::proofs::Sets::extends_refl))]
pub(crate) fn climb(
    nodes: &mut Nodes,
    way: Way,
    below: Option<u32>,
) -> Result<Option<u32>, AllocError>
    requires way { AreSteps nodes.old way }
    requires below { IsIn (length nodes.old) below }
    ensures few { length nodes.new ≤ length nodes.old + length way }
    ensures grows { Extends nodes.old nodes.new }
    ensures climbs { IfOk result (λ id. Climbs nodes.old nodes.new way below id) }
    ensures there { IfOk result (λ id. IsIn (length nodes.new) id) }
{
    let mut way = way;
    let mut below = below;
    'up: while let Some(step) = way.pop() {
        below = replace_child(nodes, step.node, step.nibble, below)?;
    }
    Ok(below)
}

/// A leaf of what is left of a key from a place on.
#[tactic(auto, using(crate::proofs::Settled::adds_sprouts, crate::proofs::Settled::adds_extends, crate::proofs::Sets::extends_refl, crate::proofs::Settled::leaf_linked, crate::proofs::Settled::leaf_back))]
pub(crate) fn sprout(
    nodes: &mut Nodes,
    key: &[u8],
    at: usize,
    value: NodeBytes,
) -> Result<u32, AllocError>
    ensures few { length nodes.new ≤ length nodes.old + 1 }
    ensures grows { Extends nodes.old nodes.new }
    ensures leaf { IfOk result (λ id. Sprouts nodes.old nodes.new id (left key.now at) value) }
{
    let part = rest_of(nodes.allocator(), key, at)?;
    let id = nodes.push(part, Some(value), [None; 16])?;
    Ok(id)
}

/// The node without the first nibbles of its part.
pub(crate) fn behind(nodes: &mut Nodes, node: u32, front: usize) -> Result<u32, AllocError>
    requires node { node < length nodes.old }
    requires front { front ≤ length (shape_at nodes.old node).part }
    ensures few { length nodes.new ≤ length nodes.old + 1 }
    ensures grows { Extends nodes.old nodes.new }
    ensures rest { IfOk result (λ id. Settles nodes.old nodes.new (drop front (shape_at nodes.old node).part)
        (shape_at nodes.old node).value (shape_at nodes.old node).below (Some id)) }
    ensures sound { Sound nodes.old }
{
    let alloc = nodes.allocator();
    let part = Vec::from_slice(alloc, &nodes.part(node)[front..])?;
    let value = nodes.value_again(node)?;
    let row = nodes.row(node);
    let id = place(nodes, part, value, row)?;
    Ok(id)
}

/// The first nibbles of a node's part.
pub(crate) fn front_of(nodes: &Nodes, node: u32, count: usize) -> Result<Vec<u8>, AllocError>
    requires node { node < length nodes.now }
    requires count { count ≤ length (shape_at nodes.now node).part }
    ensures front { IfOk result (λ front. front.items ≡ take count (shape_at nodes.now node).part) }
    ensures small { IfOk result (λ front. IsNibbles front.items) }
{
    let alloc = nodes.allocator();
    let part = nodes.part(node);
    let front = Vec::from_slice(alloc, &part[..count])?;
    Ok(front)
}

/// A row with another child.
pub(crate) fn with_child(row: Row, nibble: u8, child: u32) -> Row
    requires { nibble < 16 }
    ensures { result ≡ slice_set row nibble (Some child) }
{
    let mut row = row;
    row[nibble as usize] = Some(child);
    row
}
