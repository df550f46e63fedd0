//! Nodes that are open: taken out of the arena, or new, along the way of a key.

ghost use Rattle.std.specs.Prelude.{◌≡◌, ◌<◌, ◌≤◌, ◌+◌, ◌++◌, ◌∷◌, [], ℕ, None, Some, length, IfOk, OnOk, MatchOption};
ghost use Rattle.nr_triedef.specs.Node.{IsNibbles};
ghost use Rattle.nr_trienodes.specs.Shape.{child, no_children, shape_at};
ghost use Rattle.nr_trienodes.specs.Tries.{IsLinked};
ghost use Rattle.nr_trienodes.specs.Views.{Sound};
ghost use Rattle.nr_trienodes.specs.Turns.{Extends, Settles, left};
ghost use Rattle.nr_trienodes.specs.Opened.{IsOpen, IsOpened, HeadsSo, is_bare, left_by};

use crate::body::is_alone;
use crate::node_bytes::NodeBytes;
use crate::nodes::Nodes;
use crate::packed::Row;
use crate::settling::{Links, join, links_of};
use crate::turn::{Stop, Turn, matched, nibble_at, rest_in};
use std::alloc::{AllocError, Global};
use std::marker::Model;

/// A node that isn't in the arena.
#[derive(Drop)]
pub(crate) struct OpenNode {
    pub(crate) part: NodeBytes,
    pub(crate) value: Option<NodeBytes>,
    pub(crate) row: Row,
}

/// An open node, and the nibble by which the way leaves it. No child stands there meanwhile.
#[derive(Drop)]
pub(crate) struct Level {
    pub(crate) node: OpenNode,
    pub(crate) nibble: u8,
}

/// The open nodes that the way left. Contracts see the last one first.
#[derive(Drop)]
pub(crate) struct Levels {
    levels: Vec<Level>,
}

impl Model for Levels {
    ghost use Rattle.std.specs.Prelude.{List, reverse};
    ghost use Rattle.nr_trienodes.specs.declared.open_way.Level.{Level};

    ghost Value = { List Level };

    ghost view = { λ w. reverse w.levels.items };
}

impl Levels {
    pub(crate) fn new(alloc: Global) -> Levels
        ensures { result ≡ [] }
    {
        Levels {
            levels: Vec::new(alloc),
        }
    }

    pub(crate) fn push(&mut self, level: Level) -> Result<(), AllocError>
        ensures { OnOk result (self.new ≡ level ∷ self.old) }
    {
        self.levels.push(level)?;
        Ok(())
    }

    pub(crate) fn pop(&mut self) -> Option<Level>
        ensures { MatchOption result (self.old ≡ []) (λ level. self.old ≡ level ∷ self.new) }
    {
        self.levels.pop()
    }
}

/// A way from a root along a key, all nodes of which are open.
#[derive(Drop)]
pub(crate) struct OpenWay {
    pub(crate) levels: Levels,
    /// Its last node.
    pub(crate) top: OpenNode,
    /// How many nibbles of the key lie before that node's part.
    pub(crate) at: usize,
    /// Memory for what is left of a key, which is used again.
    pub(crate) rest: Vec<u8>,
}

/// A node of the arena, opened.
pub(crate) fn opened(nodes: &Nodes, id: u32) -> Result<OpenNode, AllocError>
    requires { id < length nodes.now }
    ensures opened { IfOk result (λ node. IsOpened nodes.now id node) }
    ensures sound { Sound nodes.now }
{
    let _count = nodes.count();
    let part = nodes.part_again(id)?;
    let value = nodes.value_again(id)?;
    let row = nodes.row(id);
    Ok(OpenNode { part, value, row })
}

/// An open node with neither a value nor children.
pub(crate) fn bare(part: NodeBytes) -> OpenNode
    ensures part { result.part ≡ part }
    ensures value { result.value ≡ None }
    ensures row { result.row ≡ no_children }
{
    OpenNode {
        part,
        value: None,
        row: [None; 16],
    }
}

/// What is left of a key from a place on, for a node's part. It is written in memory that is used again, and the
/// part is made of that.
pub(crate) fn part_in(
    rest: &mut Vec<u8>,
    alloc: Global,
    key: &[u8],
    at: usize,
) -> Result<NodeBytes, AllocError>
    ensures value { IfOk result (λ part. part ≡ left key.now at) }
    ensures small { IfOk result (λ part. IsNibbles part) }
{
    rest_in(rest, key, at)?;
    let part = NodeBytes::of(alloc, rest.as_slice())?;
    Ok(part)
}

/// Whether an open node stands for nothing.
pub(crate) fn is_bare(node: &OpenNode) -> bool
    ensures { result ≡ is_bare node.now }
{
    match &node.value {
        Some(_) => false,
        None => is_alone(&node.row),
    }
}

/// Where what is left of a key from a place on goes at an open node.
#[tactic(auto, using(crate::proofs::Keys::goes_by, crate::proofs::Keys::ends_here))]
pub(crate) fn head(nodes: &Nodes, node: &OpenNode, key: &[u8], at: usize) -> Turn
    requires { IsOpen nodes.now node.now }
    ensures { HeadsSo (length nodes.now) node.now key.now at result }
{
    let part = node.part.as_slice();
    let shared = matched(part, key, at);
    if shared < part.len() {
        return Turn::Stops(Stop::Apart { shared });
    }
    let place = at + shared;
    let Some(nibble) = nibble_at(key, place) else {
        return Turn::Stops(Stop::Here);
    };
    let next = place + 1;
    match node.row[nibble as usize] {
        None => Turn::Stops(Stop::Sprout { nibble, next }),
        Some(child) => Turn::Down {
            nibble,
            next,
            child,
        },
    }
}

// A node of these, which have a value alone or two links.
#[tactic(auto, using(crate::proofs::Settled::adds_settles, crate::proofs::Settled::adds_extends, crate::proofs::Sets::extends_refl))]
fn place_open(
    nodes: &mut Nodes,
    part: NodeBytes,
    value: Option<NodeBytes>,
    row: Row,
) -> Result<u32, AllocError>
    requires small { IsNibbles part }
    requires linked { IsLinked value row }
    requires back { (x c : ℕ) → child row x ≡ Some c → c < length nodes.old }
    ensures few { length nodes.new ≤ length nodes.old + 1 }
    ensures grows { Extends nodes.old nodes.new }
    ensures settled { IfOk result (λ id. Settles nodes.old nodes.new part value row (Some id)) }
{
    let id = nodes.push_held(part, value, row)?;
    Ok(id)
}

// The node with a front before its part.
fn join_open(nodes: &mut Nodes, front: NodeBytes, nibble: u8, child: u32) -> Result<u32, AllocError>
    requires front { IsNibbles front }
    requires nibble { nibble < 16 }
    requires child { child < length nodes.old }
    ensures few { length nodes.new ≤ length nodes.old + 1 }
    ensures grows { Extends nodes.old nodes.new }
    ensures joined { IfOk result (λ id. Settles nodes.old nodes.new
        (front ++ nibble ∷ (shape_at nodes.old child).part) (shape_at nodes.old child).value
        (shape_at nodes.old child).below (Some id)) }
    ensures sound { Sound nodes.old }
{
    let _count = nodes.count();
    let part = Vec::from_slice(nodes.allocator(), front.as_slice())?;
    let id = join(nodes, part, nibble, child)?;
    Ok(id)
}

/// The node of the arena that stands for what an open one does, or none.
pub(crate) fn settle_open(nodes: &mut Nodes, node: OpenNode) -> Result<Option<u32>, AllocError>
    requires { IsOpen nodes.old node }
    ensures few { length nodes.new ≤ length nodes.old + 1 }
    ensures grows { Extends nodes.old nodes.new }
    ensures settled { IfOk result (λ id. Settles nodes.old nodes.new node.part node.value node.row id) }
{
    let OpenNode { part, value, row } = node;
    if value.is_some() {
        let id = place_open(nodes, part, value, row)?;
        return Ok(Some(id));
    }
    match links_of(&row) {
        Links::Bare => Ok(None),
        Links::Single { nibble, child } => {
            let id = join_open(nodes, part, nibble, child)?;
            Ok(Some(id))
        }
        Links::Several => {
            let id = place_open(nodes, part, value, row)?;
            Ok(Some(id))
        }
    }
}

impl OpenWay {
    /// Goes on to another node by a nibble.
    pub(crate) fn push(&mut self, nibble: u8, next: usize, node: OpenNode) -> Result<(), AllocError>
        requires { nibble < 16 }
        ensures levels { OnOk result (self.new.levels ≡ left_by self.old.top nibble ∷ self.old.levels) }
        ensures top { OnOk result (self.new.top ≡ node) }
        ensures at { OnOk result (self.new.at ≡ next) }
    {
        let mut below = std::mem::replace(&mut self.top, node);
        below.row[nibble as usize] = None;
        self.levels.push(Level {
            node: below,
            nibble,
        })?;
        self.at = next;
        Ok(())
    }
}
