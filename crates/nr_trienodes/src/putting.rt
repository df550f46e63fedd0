//! Values put at keys: nodes of the way are made anew, and old ones stay.

ghost use Rattle.std.specs.Prelude.{◌≡◌, ◌<◌, ◌≤◌, ◌+◌, ◌*◌, length, Some, IfOk, OnErr};
ghost use Rattle.std.specs.FinMap as map;
ghost use Rattle.nr_triedef.specs.Node.{nibbles};
ghost use Rattle.nr_trienodes.specs.Shape.{shape_at};
ghost use Rattle.nr_trienodes.specs.Views.{Sound};
ghost use Rattle.nr_trienodes.specs.Turns.{left, Parts, StopsSo, Extends, Changes};
ghost use Rattle.nr_trienodes.specs.Roots.{IsRoot, IsChanged, contents, name_in, Keeps, FullsSo};

use crate::fault::NodesFault;
use crate::node_bytes::NodeBytes;
use crate::nodes::{NodeId, Nodes};
use crate::settling::{
    behind, climb, front_of, replace_child, replace_value, settle, sprout, with_child,
};
use crate::turn::{Stop, nibble_at, walk};
use std::alloc::AllocError;

/// Whether the arena has room for the nodes of a change at this key.
pub(crate) fn room_for(nodes: &Nodes, key: &[u8]) -> Result<(), NodesFault>
    ensures full { FullsSo (length nodes.now) (length (nibbles key.now)) result }
    ensures sound { Sound nodes.now }
{
    let held = nodes.count();
    if key.len() >= 1 << 30 {
        return Err(NodesFault::Full { nodes: held });
    }
    if u64::from(held) + 4 + 4 * key.len() as u64 > 1 << 32 {
        return Err(NodesFault::Full { nodes: held });
    }
    Ok(())
}

// A node whose part the key leaves after some nibbles, with the value at the key.
#[tactic(auto, using(crate::proofs::Sets::extends_trans))]
fn split(
    nodes: &mut Nodes,
    node: u32,
    shared: usize,
    key: &[u8],
    at: usize,
    value: NodeBytes,
) -> Result<Option<u32>, AllocError>
    requires node { node < length nodes.old }
    requires parts { Parts (shape_at nodes.old node) key.now at shared }
    ensures few { length nodes.new ≤ length nodes.old + 3 }
    ensures grows { Extends nodes.old nodes.new }
    ensures put { IfOk result (λ id. Changes nodes.old nodes.new (Some node) id (left key.now at) (Some value)
        (2 * length (left key.now at) + 3)) }
{
    let nibble = nodes.part(node)[shared];
    let lower = behind(nodes, node, shared + 1)?;
    let part = front_of(nodes, node, shared)?;
    let row = with_child([None; 16], nibble, lower);
    let place = at + shared;
    match nibble_at(key, place) {
        None => {
            let fork = settle(nodes, part, Some(value), row)?;
            Ok(fork)
        }
        Some(other) => {
            let leaf = sprout(nodes, key, place + 1, value)?;
            let branches = with_child(row, other, leaf);
            let branch = settle(nodes, part, None, branches)?;
            Ok(branch)
        }
    }
}

// The last node of a way, with the value at what is left of the key.
#[tactic(auto, using(crate::proofs::Sets::extends_trans))]
fn put_at(
    nodes: &mut Nodes,
    node: u32,
    stop: Stop,
    key: &[u8],
    at: usize,
    value: NodeBytes,
) -> Result<Option<u32>, AllocError>
    requires node { node < length nodes.old }
    requires stop { StopsSo (shape_at nodes.old node) key.now at stop }
    ensures few { length nodes.new ≤ length nodes.old + 3 }
    ensures grows { Extends nodes.old nodes.new }
    ensures put { IfOk result (λ id. Changes nodes.old nodes.new (Some node) id (left key.now at) (Some value)
        (2 * length (left key.now at) + 3)) }
{
    let _count = nodes.count();
    match stop {
        Stop::Here => {
            let valued = replace_value(nodes, node, Some(value))?;
            Ok(valued)
        }
        Stop::Sprout { nibble, next } => {
            let leaf = sprout(nodes, key, next, value)?;
            let grown = replace_child(nodes, node, nibble, Some(leaf))?;
            Ok(grown)
        }
        Stop::Apart { shared } => {
            let halves = split(nodes, node, shared, key, at, value)?;
            Ok(halves)
        }
    }
}

// The root of the map below a node with a value put at a key.
#[tactic(auto, using(crate::proofs::Sets::extends_trans, crate::proofs::Climbing::steps_more))]
fn put_below(
    nodes: &mut Nodes,
    root: u32,
    key: &[u8],
    value: NodeBytes,
) -> Result<Option<u32>, AllocError>
    requires { root < length nodes.old }
    ensures few { length nodes.new ≤ length nodes.old + length (nibbles key.now) + 3 }
    ensures grows { Extends nodes.old nodes.new }
    ensures put { IfOk result (λ id. Changes nodes.old nodes.new (Some root) id (nibbles key.now) (Some value)
        (2 * length (nibbles key.now) + 3)) }
{
    let end = walk(nodes, root, key)?;
    let below = put_at(nodes, end.node, end.stop, key, end.at, value)?;
    let id = climb(nodes, end.way, below)?;
    Ok(id)
}

// The same, from a root or none.
#[tactic(auto, using(crate::proofs::Puts::put_some, crate::proofs::Puts::put_none))]
fn put_from(
    nodes: &mut Nodes,
    root: Option<NodeId>,
    key: &[u8],
    value: NodeBytes,
) -> Result<Option<u32>, AllocError>
    requires { IsRoot nodes.old root }
    ensures few { length nodes.new ≤ length nodes.old + length (nibbles key.now) + 3 }
    ensures grows { Extends nodes.old nodes.new }
    ensures put { IfOk result (λ id. Changes nodes.old nodes.new (name_in root) id (nibbles key.now) (Some value)
        (2 * length (nibbles key.now) + 3)) }
{
    match root {
        Some(root) => {
            let top = put_below(nodes, root.0, key, value)?;
            Ok(top)
        }
        None => {
            let leaf = sprout(nodes, key, 0, value)?;
            Ok(Some(leaf))
        }
    }
}

// A value, for a node.
fn held_value(nodes: &Nodes, value: &[u8]) -> Result<NodeBytes, AllocError>
    ensures { IfOk result (λ held. held ≡ value.now) }
{
    let alloc = nodes.allocator();
    NodeBytes::of(alloc, value)
}

// The new root, or what came to be behind the old nodes.
fn put_value(
    nodes: &mut Nodes,
    root: Option<NodeId>,
    key: &[u8],
    value: &[u8],
) -> Result<u32, AllocError>
    requires { IsRoot nodes.old root }
    ensures few { length nodes.new ≤ length nodes.old + length (nibbles key.now) + 3 }
    ensures grows { Extends nodes.old nodes.new }
    ensures put { IfOk result (λ id. Changes nodes.old nodes.new (name_in root) (Some id) (nibbles key.now)
        (Some value.now) (2 * length (nibbles key.now) + 3)) }
    ensures sound { Sound nodes.new }
{
    let held = held_value(nodes, value);
    let changed = match held {
        Ok(value) => put_from(nodes, root, key, value),
        Err(e) => Err(e),
    };
    let _count = nodes.count();
    match changed {
        Err(e) => Err(e),
        Ok(None) => unreachable!(),
        Ok(Some(id)) => Ok(id),
    }
}

impl Nodes {
    /// The root of a map with a value put at a key, in place of an earlier one. Old roots stay.
    ///
    /// # Errors
    ///
    /// `Full` exactly where the arena holds more than 2^32 - 4 - 2n nodes, where n is the number of
    /// the key's nibbles. Want of memory, as which count a value of 2^32 bytes or more and a usage
    /// that passes u64. Each leaves the nodes as they were.
    #[tactic(auto, using(crate::proofs::Changed::keeps_extends, crate::proofs::Changed::cut_back))]
    pub fn put(
        &mut self,
        root: Option<NodeId>,
        key: &[u8],
        value: &[u8],
    ) -> Result<NodeId, NodesFault>
        requires { IsRoot self.old root }
        ensures put { IfOk result (λ id. IsChanged self.old self.new root (Some id)
            (map.insert (contents self.old root) key.now value.now) (2 * length (nibbles key.now) + 3)) }
        ensures kept { Keeps self.old self.new }
        ensures few { length self.new ≤ length self.old + 2 * length (nibbles key.now) + 3 }
        ensures err { OnErr result (self.new ≡ self.old) }
        ensures full { FullsSo (length self.old) (length (nibbles key.now)) result }
    {
        room_for(self, key)?;
        let before = self.len();
        match put_value(self, root, key, value) {
            Ok(id) => Ok(NodeId(id)),
            Err(_) => {
                self.truncate(before);
                Err(NodesFault::Memory)
            }
        }
    }
}
