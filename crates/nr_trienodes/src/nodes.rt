//! The arena.

ghost use Rattle.std.specs.Prelude.{◌≡◌, ◌<◌, ◌≤◌, ◌-◌, ◌+◌, ◌^◌, ◌*◌, ◌/◌, ℕ, true, false, [], length, map, take};
ghost use Rattle.std.specs.Prelude.{drop, slice_set, is_some, count_by, sum_by, Some, IfOk, OnErr};
ghost use Rattle.std.specs.Option.{option_copied, option_map};
ghost use Rattle.nr_triedef.specs.Node.{IsNibbles};
ghost use Rattle.nr_triedef.specs.Root.{usage_below, value_usage};
ghost use Rattle.nr_trienodes.specs.Packing.{IsPackable, none_number};
ghost use Rattle.nr_trienodes.specs.Shape.{shape_at, child, no_children};
ghost use Rattle.nr_trienodes.specs.Tries.{summary_at, front_usage, own_usage, IsLinked};
ghost use Rattle.nr_trienodes.specs.Naming.{new_name, renamed, with_names, HaveOwn, AreOldest, IsKept, IsClosed};
ghost use Rattle.nr_trienodes.specs.Naming.{IsSlid, AreNamed, SlidesOn};
ghost use Rattle.nr_trienodes.specs.Views.{shape, shapes, Sound, IsIn, Adds, KeepsHash};

use crate::body::{Body, is_alone, with_row};
use crate::names::Names;
use crate::node_bytes::NodeBytes;
use crate::packed::{Packed, Row};
use crate::spare::Spare;
use nr_triedef::{NodeHash, sum_of};
use std::alloc::{AllocError, Global};
use std::marker::Model;

// A trim keeps a box more only where fewer are held than it leaves nodes, or than this many.
const SPARE: usize = 1 << 14;

/// The name of a node: the number of older nodes in its arena. A trim gives new names.
#[derive(Clone, Copy, Debug, PartialEq, Eq)]
pub struct NodeId(pub(crate) u32);

// A node stands for the keys that begin with its part: the value whose key ends behind the part, and
// those below the child of each next nibble.
#[derive(Drop)]
struct Node {
    part: NodeBytes,
    body: Body,
    usage: u64,
    hash: Option<NodeHash>,
}

// What a node holds, for another one.
#[derive(Drop)]
struct Like {
    part: NodeBytes,
    value: Option<NodeBytes>,
    row: Packed,
}

/// Nodes of tries, each named by how many are older. Contracts see them with the newest first.
#[derive(Drop)]
pub struct Nodes {
    alloc: Global,
    nodes: Vec<Node>,
    // The list of the last trim, of which the next one takes the memory over.
    names: Names,
    // Boxes of nodes that trims dropped.
    spare: Spare,
}

impl Model for Nodes {
    ghost use Rattle.std.specs.Prelude.{List};
    ghost use Rattle.nr_trienodes.specs.Shape.{Shape};

    ghost Value = { List Shape };

    ghost use Rattle.nr_trienodes.specs.Views.{nodes_view, IsArena};

    ghost view = { nodes_view };

    ghost invariant = { IsArena };
}

fn name_of(names: &Names, child: Option<u32>) -> Option<u32>
    requires { IsIn (length names.now) child }
    ensures { result ≡ renamed names.now child }
{
    match child {
        None => None,
        Some(id) => names.get(id),
    }
}

// Gives the children of a packed row their new names.
fn rename_packed(row: &mut Packed, names: &Names)
    requires children { (x c : ℕ) → child row.old x ≡ Some c → c < length names.now }
    requires packable { IsPackable (map (renamed names.now) row.old) }
    ensures { row.new ≡ map (renamed names.now) row.old }
{
    for x in 0..16u8 {
        let child = row.at(x);
        row.set(x, name_of(names, child));
    }
}

fn rename_node(node: &mut Node, names: &Names)
    requires children { (x c : ℕ) → child (shape node.old).below x ≡ Some c → c < length names.now }
    requires packable { IsPackable (with_names names.now (shape node.old)).below }
    ensures { shape node.new ≡ with_names names.now (shape node.old) }
{
    match &mut node.body {
        Body::Bare => {}
        Body::Value(_) => {}
        Body::Children(row) => rename_packed(row, names),
        Body::Both(both) => rename_packed(&mut both.row, names),
    }
}

// Moves a node to a lower place, with the new names of its children.
fn move_node(nodes: &mut Vec<Node>, names: &Names, id: usize, to: usize)
    requires there { id < length nodes.old.items }
    requires lower { to ≤ id }
    requires children { (x c : ℕ) → child (shape_at (shapes nodes.old.items) id).below x ≡ Some c
        → c < length names.now }
    requires packable { IsPackable (with_names names.now (shape_at (shapes nodes.old.items) id)).below }
    ensures { IsSlid names.now (shapes nodes.old.items) (shapes nodes.new.items) id to }
{
    rename_node(&mut nodes[id], names);
    nodes.swap(to, id);
}

// Gives a node the next name, where it is kept, and answers the name behind it.
fn slide_one(nodes: &mut Vec<Node>, names: &mut Names, id: usize, next: u32) -> u32
    requires there { id < length nodes.old.items }
    requires lower { next ≤ id }
    requires long { length names.old ≡ length nodes.old.items }
    requires few { length nodes.old.items < 2 ^ 32 }
    requires children { (x c : ℕ) → child (shape_at (shapes nodes.old.items) id).below x ≡ Some c → c < id }
    requires names { (c name : ℕ) → c < id → new_name names.old c ≡ Some name → name < next }
    requires own { HaveOwn names.old id → next ≡ id }
    ensures slides { SlidesOn (shapes nodes.old.items) (shapes nodes.new.items) names.old names.new id next result }
    ensures older { (c : ℕ) → c < id → new_name names.new c ≡ new_name names.old c }
{
    if !names.is_kept(id as u32) {
        return next;
    }
    names.set(id as u32, next);
    move_node(nodes, names, id, next as usize);
    next + 1
}

// Drops the last node, where there are more than so many.
fn drop_last(nodes: &mut Vec<Node>, spare: &mut Spare, count: usize)
    ensures { take count nodes.new.items ≡ take count nodes.old.items }
{
    if nodes.len() <= count {
        return;
    }
    if let Some(node) = nodes.pop() {
        spare.keep(node.body, count.max(SPARE));
    }
}

// Drops the nodes behind so many, and keeps their boxes.
fn drop_behind(nodes: &mut Vec<Node>, spare: &mut Spare, count: usize)
    ensures { nodes.new.items ≡ take count nodes.old.items }
{
    for _ in count..nodes.len() {
        drop_last(nodes, spare, count);
    }
    nodes.truncate(count);
}

impl Nodes {
    /// An arena without nodes. It takes no memory.
    pub fn new(alloc: Global) -> Nodes
        ensures { result ≡ [] }
    {
        Nodes {
            alloc,
            nodes: Vec::new(alloc),
            names: Names::new(alloc),
            spare: Spare::new(alloc),
        }
    }

    /// How many nodes are held.
    #[tactic(auto, using(crate::proofs::Views::count_view))]
    pub fn len(&self) -> usize
        ensures { result ≡ length self.now }
    {
        self.nodes.len()
    }

    /// The same number as u32.
    #[tactic(auto, using(crate::proofs::Views::count_view))]
    pub(crate) fn count(&self) -> u32
        ensures count { result ≡ length self.now }
        ensures sound { Sound self.now }
    {
        self.nodes.len() as u32
    }

    pub(crate) fn allocator(&self) -> Global
        ensures { Sound self.now }
    {
        self.alloc
    }

    #[tactic(auto, using(crate::proofs::Views::node_view, crate::proofs::Views::count_view))]
    fn node(&self, id: u32) -> &Node
        requires { id < length self.now }
        ensures { shape result.now ≡ shape_at self.now id }
    {
        &self.nodes[id as usize]
    }

    /// The nibbles in front of all keys of a node.
    pub(crate) fn part(&self, id: u32) -> &[u8]
        requires { id < length self.now }
        ensures { result.now ≡ (shape_at self.now id).part }
    {
        self.node(id).part.as_slice()
    }

    /// The part once more, for another node.
    pub(crate) fn part_again(&self, id: u32) -> Result<NodeBytes, AllocError>
        requires { id < length self.now }
        ensures { IfOk result (λ part. part ≡ (shape_at self.now id).part) }
    {
        let part = self.node(id).part.try_clone()?;
        Ok(part)
    }

    /// The value whose key ends behind the part.
    pub(crate) fn value(&self, id: u32) -> Option<&[u8]>
        requires { id < length self.now }
        ensures { option_copied result ≡ (shape_at self.now id).value }
    {
        match self.node(id).body.value() {
            None => None,
            Some(value) => Some(value.as_slice()),
        }
    }

    /// The value once more, for another node.
    pub(crate) fn value_again(&self, id: u32) -> Result<Option<NodeBytes>, AllocError>
        requires { id < length self.now }
        ensures { IfOk result (λ value. value ≡ (shape_at self.now id).value) }
    {
        let value = self.node(id).body.value_again()?;
        Ok(value)
    }

    /// Whether a node has children.
    pub(crate) fn is_inner(&self, id: u32) -> bool
        requires { id < length self.now }
        ensures { result ≡ false → (shape_at self.now id).below ≡ no_children }
    {
        self.node(id).body.children().is_some()
    }

    pub(crate) fn row(&self, id: u32) -> Row
        requires { id < length self.now }
        ensures { result ≡ (shape_at self.now id).below }
    {
        match self.node(id).body.children() {
            None => [None; 16],
            Some(row) => row.row(),
        }
    }

    #[tactic(auto, using(crate::proofs::Rows::child_get, crate::proofs::Sounds::back_at))]
    pub(crate) fn child(&self, id: u32, nibble: u8) -> Option<u32>
        requires there { id < length self.now }
        requires nibble { nibble < 16 }
        ensures value { result ≡ child (shape_at self.now id).below nibble }
        ensures smaller { (c : ℕ) → result ≡ Some c → c < id }
    {
        let _alloc = self.alloc;
        match self.node(id).body.children() {
            None => None,
            Some(row) => row.at(nibble),
        }
    }

    /// The memory usage of a node and all below it, in bytes.
    pub(crate) fn usage_at(&self, id: u32) -> u64
        requires { id < length self.now }
        ensures { result ≡ (summary_at self.now id).usage }
    {
        let _alloc = self.alloc;
        self.node(id).usage
    }

    /// The hash of a node, where it is kept.
    pub(crate) fn hash_at(&self, id: u32) -> Option<NodeHash>
        requires { id < length self.now }
        ensures { result ≡ (shape_at self.now id).hash }
    {
        self.node(id).hash
    }

    /// Keeps the hash of a node.
    pub(crate) fn keep_hash(&mut self, id: u32, hash: NodeHash)
        requires there { id < length self.old }
        requires hash { hash ≡ (summary_at self.old id).hash }
        requires below { (x c : ℕ) → child (shape_at self.old id).below x ≡ Some c
            → is_some (shape_at self.old c).hash ≡ true }
        ensures { KeepsHash self.old self.new id hash }
    {
        let node = &mut self.nodes[id as usize];
        node.hash = Some(hash);
    }

    // The usages of the children together.
    fn usage_below(&self, row: &Row) -> Result<u64, AllocError>
        requires { (x c : ℕ) → child row.now x ≡ Some c → c < length self.now }
        ensures { IfOk result (λ n. n ≡ sum_by (λ c. usage_below (option_map (summary_at self.now) c)) row.now) }
    {
        let mut usage = 0;
        for child in row {
            usage = sum_of(usage, self.usage_in(*child))?;
        }
        Ok(usage)
    }

    fn usage_in(&self, child: Option<u32>) -> u64
        requires { IsIn (length self.now) child }
        ensures { result ≡ usage_below (option_map (summary_at self.now) child) }
    {
        match child {
            None => 0,
            Some(id) => self.usage_at(id),
        }
    }

    /// Adds a node. Besides memory, the refusal is for a part of 2^32 nibbles or a value of 2^32 bytes
    /// or more, for a usage that passes u64, and for 2^32 nodes.
    pub(crate) fn push_held(
        &mut self,
        part: NodeBytes,
        value: Option<NodeBytes>,
        row: Row,
    ) -> Result<u32, AllocError>
        requires small { IsNibbles part }
        requires linked { IsLinked value row }
        requires back { (x c : ℕ) → child row x ≡ Some c → c < length self.old }
        ensures ok { IfOk result (λ id. Adds self.old self.new id part value row) }
        ensures err { OnErr result (self.new ≡ self.old) }
    {
        let id = self.count();
        if id == u32::MAX {
            return Err(AllocError);
        }
        let below = self.usage_below(&row)?;
        let alone = is_alone(&row);
        let front = part.as_slice();
        let usage = usage_of(front, &value, alone, below)?;
        let body = Body::of(self.alloc, &mut self.spare, value, &row)?;
        let node = Node {
            part,
            body,
            usage,
            hash: None,
        };
        self.nodes.push(node)?;
        Ok(id)
    }

    /// Adds a node whose part isn't held yet. The refusals are those of `push_held`.
    pub(crate) fn push(
        &mut self,
        part: Vec<u8>,
        value: Option<NodeBytes>,
        row: Row,
    ) -> Result<u32, AllocError>
        requires small { IsNibbles part.items }
        requires linked { IsLinked value row }
        requires back { (x c : ℕ) → child row x ≡ Some c → c < length self.old }
        ensures ok { IfOk result (λ id. Adds self.old self.new id part.items value row) }
        ensures err { OnErr result (self.new ≡ self.old) }
    {
        let front = NodeBytes::of(self.alloc, &part)?;
        let id = self.push_held(front, value, row)?;
        Ok(id)
    }

    // The usage of a node with another child in place of one.
    #[tactic(auto, using(crate::proofs::Relinks::in_older, crate::proofs::Relinks::relink_less, crate::proofs::Relinks::relink_usage))]
    fn usage_with(&self, id: u32, nibble: u8, below: u32) -> Result<u64, AllocError>
        requires there { id < length self.now }
        requires nibble { nibble < 16 }
        requires below { below < length self.now }
        requires some { is_some (child (shape_at self.now id).below nibble) ≡ true }
        ensures { IfOk result (λ n. n ≡ own_usage (shape_at self.now id).part (shape_at self.now id).value false
            (sum_by (λ c. usage_below (option_map (summary_at self.now) c))
            (slice_set (shape_at self.now id).below nibble (Some below)))) }
    {
        let _count = self.count();
        let old = self.child(id, nibble);
        let other = self.usage_in(old);
        let held = self.usage_at(id);
        let more = self.usage_at(below);
        let usage = sum_of(held - other, more)?;
        Ok(usage)
    }

    // What a node holds, with another child in place of one.
    fn like(&self, id: u32, nibble: u8, below: u32) -> Result<Like, AllocError>
        requires there { id < length self.now }
        requires nibble { nibble < 16 }
        requires below { below < none_number }
        ensures part { IfOk result (λ l. l.part ≡ (shape_at self.now id).part) }
        ensures value { IfOk result (λ l. l.value ≡ (shape_at self.now id).value) }
        ensures row { IfOk result (λ l. l.row ≡ slice_set (shape_at self.now id).below nibble (Some below)) }
    {
        let node = self.node(id);
        let part = node.part.try_clone()?;
        let value = node.body.value_again()?;
        let row = node.body.row_with(nibble, below);
        Ok(Like { part, value, row })
    }

    /// Adds a node like another one, with another child in place of one. Besides memory, the refusal
    /// is for a usage that passes u64, and for 2^32 nodes.
    pub(crate) fn relink(&mut self, id: u32, nibble: u8, below: u32) -> Result<u32, AllocError>
        requires there { id < length self.old }
        requires nibble { nibble < 16 }
        requires below { below < length self.old }
        requires some { is_some (child (shape_at self.old id).below nibble) ≡ true }
        ensures ok { IfOk result (λ name. Adds self.old self.new name (shape_at self.old id).part
            (shape_at self.old id).value (slice_set (shape_at self.old id).below nibble (Some below))) }
        ensures err { OnErr result (self.new ≡ self.old) }
    {
        let name = self.count();
        if name == u32::MAX {
            return Err(AllocError);
        }
        let usage = self.usage_with(id, nibble, below)?;
        let like = self.like(id, nibble, below)?;
        let Like { part, value, row } = like;
        let body = with_row(self.alloc, &mut self.spare, value, row)?;
        let node = Node {
            part,
            body,
            usage,
            hash: None,
        };
        self.nodes.push(node)?;
        Ok(name)
    }

    /// A list in which the oldest nodes have their own names, and the others none.
    pub(crate) fn take_names(&mut self, oldest: usize) -> Result<Names, AllocError>
        requires { oldest ≤ length self.old }
        ensures names { IfOk result (λ names. AreOldest names oldest (length self.old)) }
        ensures same { self.new ≡ self.old }
    {
        let count = self.len();
        let names = std::mem::replace(&mut self.names, Names::new(self.alloc));
        names.anew(oldest, count)
    }

    /// Keeps the list for the next trim.
    pub(crate) fn keep_names(&mut self, names: Names)
        ensures { self.new ≡ self.old }
    {
        self.names = names;
    }

    /// Drops the nodes that aren't kept, and gives the others their new names in order. The oldest
    /// ones have theirs.
    pub(crate) fn slide(&mut self, names: &mut Names, oldest: usize)
        requires long { length names.old ≡ length self.old }
        requires closed { IsClosed self.old names.old 0 }
        requires oldest { HaveOwn names.old oldest }
        requires there { oldest ≤ length self.old }
        ensures named { AreNamed names.new self.old self.new }
        ensures own { HaveOwn names.new oldest }
        ensures count { length self.new ≡ count_by is_some names.old }
        ensures kept { (id : ℕ) → IsKept names.old id → IsKept names.new id }
    {
        let _count = self.count();
        let mut next = oldest as u32;
        for id in oldest..self.nodes.len() {
            next = slide_one(&mut self.nodes, names, id, next);
        }
        drop_behind(&mut self.nodes, &mut self.spare, next as usize);
    }

    /// Drops all but the oldest nodes.
    pub(crate) fn truncate(&mut self, count: usize)
        ensures { self.new ≡ drop (length self.old - count) self.old }
    {
        self.nodes.truncate(count);
    }
}

// A length of 2^32 or more counts as want of memory.
fn length_of(bytes: &[u8]) -> Result<u64, AllocError>
    ensures size { IfOk result (λ n. n ≡ length bytes.now) }
    ensures few { IfOk result (λ n. n < 2 ^ 32) }
{
    let length = u32::try_from(bytes.len()).map_err(|_| AllocError)?;
    Ok(u64::from(length))
}

// The usage of a part that a node has.
fn spelled_usage(part: &[u8]) -> Result<u64, AllocError>
    ensures size { IfOk result (λ n. n ≡ 50 + 2 * (length part.now / 2 + 1)) }
    ensures few { IfOk result (λ n. n < 2 ^ 34) }
{
    let length = length_of(part)?;
    Ok(50 + 2 * (length / 2 + 1))
}

// The usage of a leaf's part, or of a front, which is none where it is empty.
#[tactic(auto, using(crate::proofs::Rows::leaf_size, crate::proofs::Rows::front_size, crate::proofs::Rows::front_none))]
fn part_usage(part: &[u8], leaf: bool) -> Result<u64, AllocError>
    ensures size { IfOk result (λ n. n ≡ front_usage part.now leaf) }
    ensures few { IfOk result (λ n. n < 2 ^ 34) }
{
    if leaf {
        let usage = spelled_usage(part)?;
        return Ok(usage);
    }
    if part.len() == 0 {
        return Ok(0);
    }
    let usage = spelled_usage(part)?;
    Ok(usage)
}

fn value_usage_of(value: &Option<NodeBytes>) -> Result<u64, AllocError>
    ensures size { IfOk result (λ n. n ≡ value_usage value.now) }
    ensures few { IfOk result (λ n. n < 2 ^ 34) }
{
    match value {
        None => Ok(0),
        Some(value) => {
            let length = length_of(value.as_slice())?;
            Ok(50 + length)
        }
    }
}

// The usage of a node, of which the children have this together.
fn usage_of(
    part: &[u8],
    value: &Option<NodeBytes>,
    alone: bool,
    below: u64,
) -> Result<u64, AllocError>
    ensures { IfOk result (λ n. n ≡ own_usage part.now value.now alone below) }
{
    let leaf = alone && value.is_some();
    let own = value_usage_of(value)? + part_usage(part, leaf)?;
    if leaf {
        return Ok(own);
    }
    sum_of(own + 50, below)
}
