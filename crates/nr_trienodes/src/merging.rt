//! Many changes worked in at once: each node along their keys is opened once, and made once.

ghost use Rattle.std.specs.Prelude.{◌≡◌, ◌≢◌, ◌<◌, ◌≤◌, ◌+◌, ◌*◌, ◌-◌, ◌^◌, ◌∷◌, [], ℕ, List as Items, true};
ghost use Rattle.std.specs.Prelude.{cond, is_some, None, Some, length, take, drop, slice_index, IfOk, IfSome, OnOk};
ghost use Rattle.std.specs.Prelude.{OnErr};
ghost use Rattle.std.specs.Option.{option_copied};
ghost use Rattle.std.specs.FinMap as map;
ghost use Rattle.nr_triedef.specs.Node.{nibbles};
ghost use Rattle.nr_trienodes.specs.Shape.{Shape, child};
ghost use Rattle.nr_trienodes.specs.Tries.{stripped, found_in, cost_in};
ghost use Rattle.nr_trienodes.specs.Views.{IsIn};
ghost use Rattle.nr_trienodes.specs.Turns.{Extends, GoesBy, Parts, left};
ghost use Rattle.nr_trienodes.specs.Roots.{IsRoot, IsChanged, contents, name_in, Keeps};
ghost use Rattle.nr_trienodes.specs.Opened.{IsWay, IsAlong, Steady, Alters, HeadsSo, is_bare, shape_of, holds};
ghost use Rattle.nr_trienodes.specs.Opened.{way_cost, Merges, TopsSo, StartsSo, CountsOn, CountsAll};
ghost use Rattle.nr_trienodes.specs.Merging.{with_value, merged, merge_weight, IsOverfull, OverfullsSo};
ghost use Rattle.nr_trienodes.specs.declared.turn.Turn.TheVariants.{Stops};

use crate::fault::NodesFault;
use crate::node_bytes::NodeBytes;
use crate::nodes::{NodeId, Nodes};
use crate::open_way::{
    Levels, OpenNode, OpenWay, bare, head, is_bare, opened, part_in, settle_open,
};
use crate::turn::{Stop, Turn, nibble_at};
use std::alloc::AllocError;
use std::marker::Model;

// What is left of most keys has fewer nibbles.
const REST: usize = 128;

/// Another value at a key, or none.
#[derive(Debug, Drop)]
pub struct Change<'a> {
    key: &'a [u8],
    value: Option<&'a [u8]>,
}

impl<'a> Model for Change<'a> {
    ghost use Rattle.std.specs.Prelude.{List, Option, ℕ};
    ghost use Rattle.std.specs.Option.{option_copied};

    ghost Value = { List ℕ × Option (List ℕ) };

    ghost view = { λ c. (c.key.now, option_copied c.value) };
}

impl<'a> Change<'a> {
    /// This value at this key, or none.
    pub fn of(key: &'a [u8], value: Option<&'a [u8]>) -> Change<'a>
        ensures { result ≡ (key.now, option_copied value.entry) }
    {
        Change { key, value }
    }
}

/// A root, and how many entries its map has.
#[derive(Clone, Copy, Debug)]
pub struct CountedRoot {
    /// The root.
    pub root: Option<NodeId>,
    /// The number of entries.
    pub count: usize,
}

impl CountedRoot {
    /// The root of the empty map, in any arena.
    pub fn none() -> CountedRoot
        ensures none { result.root ≡ None }
        ensures root { (nodes : Items Shape) → IsRoot nodes result.root }
        ensures count { (nodes : Items Shape) → result.count ≡ length (map.entries (contents nodes result.root)) }
    {
        CountedRoot {
            root: None,
            count: 0,
        }
    }
}

// The root's node.
#[tactic(auto, using(crate::proofs::Moves::top_none, crate::proofs::Moves::top_some))]
fn top_of(nodes: &Nodes, root: Option<u32>) -> Result<OpenNode, AllocError>
    requires { IsIn (length nodes.now) root }
    ensures { IfOk result (λ node. TopsSo nodes.now root node) }
{
    let _count = nodes.count();
    match root {
        None => {
            let part = NodeBytes::of(nodes.allocator(), &[])?;
            Ok(bare(part))
        }
        Some(id) => {
            let node = opened(nodes, id)?;
            Ok(node)
        }
    }
}

// The way that ends at the root.
#[tactic(auto, using(crate::proofs::Moves::started))]
fn start(nodes: &Nodes, root: Option<u32>) -> Result<OpenWay, AllocError>
    requires { IsIn (length nodes.now) root }
    ensures { IfOk result (λ way. StartsSo nodes.now root way) }
{
    let top = top_of(nodes, root)?;
    let rest = Vec::with_capacity(nodes.allocator(), REST)?;
    Ok(OpenWay {
        levels: Levels::new(nodes.allocator()),
        top,
        at: 0,
        rest,
    })
}

// Puts the last node into the arena, and goes back to the one before it.
fn close(nodes: &mut Nodes, way: &mut OpenWay) -> Result<(), AllocError>
    requires way { IsWay nodes.old way.old }
    requires some { 0 < length way.old.levels }
    ensures steady { OnOk result (Steady nodes.old nodes.new way.old way.new 0 0) }
    ensures less { OnOk result (length way.new.levels + 1 ≡ length way.old.levels) }
    ensures along { OnOk result ((key : Items ℕ) → IsAlong key way.old → IsAlong key way.new) }
    ensures grows { Extends nodes.old nodes.new }
{
    let Some(level) = way.levels.pop() else {
        unreachable!();
    };
    let top = std::mem::replace(&mut way.top, level.node);
    let id = settle_open(nodes, top)?;
    way.top.row[level.nibble as usize] = id;
    way.at = way.at - 1 - way.top.part.as_slice().len();
    Ok(())
}

// How many nibbles two keys share at their fronts, or fewer.
#[tactic(auto, using(crate::proofs::Moves::shared_more, crate::proofs::Moves::shared_even, crate::proofs::Moves::shared_odd))]
fn shared_of(one: &[u8], other: &[u8]) -> usize
    ensures { take result (nibbles one.now) ≡ take result (nibbles other.now) }
{
    let most = one.len().min(other.len());
    let mut count = 0;
    while count < most && one[count] == other[count] {
        count += 1;
    }
    if count < most && one[count] / 16 == other[count] / 16 {
        return 2 * count + 1;
    }
    2 * count
}

// Goes back along a key to where another one goes the same way.
#[tactic(auto, using(crate::proofs::Moves::steady_refl, crate::proofs::Moves::some_levels))]
fn leave(nodes: &mut Nodes, way: &mut OpenWay, last: &[u8], key: &[u8]) -> Result<(), AllocError>
    requires way { IsWay nodes.old way.old }
    requires along { IsAlong last.now way.old }
    ensures steady { OnOk result (Steady nodes.old nodes.new way.old way.new 0 0) }
    ensures along { OnOk result (IsAlong key.now way.new) }
    ensures grows { Extends nodes.old nodes.new }
{
    let shared = shared_of(last, key);
    'back: while way.at > shared {
        close(nodes, way)?;
    }
    Ok(())
}

// Goes on along a key as far as there are nodes.
#[tactic(auto, using(crate::proofs::Moves::steady_refl))]
fn descend(nodes: &Nodes, way: &mut OpenWay, key: &[u8]) -> Result<Stop, AllocError>
    requires way { IsWay nodes.now way.old }
    requires along { IsAlong key.now way.old }
    ensures steady { OnOk result (Steady nodes.now nodes.now way.old way.new (length (left key.now way.old.at))
        (length (left key.now way.new.at))) }
    ensures along { OnOk result (IsAlong key.now way.new) }
    ensures stops { IfOk result (λ stop. HeadsSo (length nodes.now) way.new.top key.now way.new.at (Stops stop)) }
{
    let _count = nodes.count();
    'down: loop {
        match head(nodes, &way.top, key, way.at) {
            Turn::Stops(stop) => return Ok(stop),
            Turn::Down {
                nibble,
                next,
                child,
            } => {
                let node = opened(nodes, child)?;
                way.push(nibble, next, node)?;
            }
        }
    }
}

// A nibble of the last node's part.
fn nibble_in(way: &OpenWay, at: usize) -> u8
    requires { at < length way.now.top.part }
    ensures { result ≡ slice_index way.now.top.part at }
{
    way.top.part.as_slice()[at]
}

// The first nibbles of the last node's part.
fn part_before(nodes: &Nodes, way: &OpenWay, shared: usize) -> Result<NodeBytes, AllocError>
    requires { shared < length way.now.top.part }
    ensures { IfOk result (λ part. part ≡ take shared way.now.top.part) }
{
    let part = way.top.part.as_slice();
    NodeBytes::of(nodes.allocator(), &part[..shared])
}

// Those behind one.
fn part_behind(nodes: &Nodes, way: &OpenWay, shared: usize) -> Result<NodeBytes, AllocError>
    requires { shared < length way.now.top.part }
    ensures { IfOk result (λ part. part ≡ drop (shared + 1) way.now.top.part) }
{
    let part = way.top.part.as_slice();
    NodeBytes::of(nodes.allocator(), &part[shared + 1..])
}

// Splits the last node in two at a nibble of its part, of which the upper one stays open.
fn split(nodes: &mut Nodes, way: &mut OpenWay, shared: usize) -> Result<(), AllocError>
    requires way { IsWay nodes.old way.old }
    requires within { shared < length way.old.top.part }
    ensures steady { OnOk result (Steady nodes.old nodes.new way.old way.new 1 0) }
    ensures part { OnOk result (way.new.top.part ≡ take shared way.old.top.part) }
    ensures row { OnOk result ((y : ℕ) → y ≢ slice_index way.old.top.part shared → child way.new.top.row y ≡ None) }
    ensures levels { OnOk result (way.new.levels ≡ way.old.levels) }
    ensures at { OnOk result (way.new.at ≡ way.old.at) }
    ensures grows { Extends nodes.old nodes.new }
{
    let nibble = nibble_in(way, shared);
    let front = part_before(nodes, way, shared)?;
    let back = part_behind(nodes, way, shared)?;
    let OpenNode {
        part: _,
        value,
        row,
    } = std::mem::replace(&mut way.top, bare(front));
    let rest = OpenNode {
        part: back,
        value,
        row,
    };
    let lower = settle_open(nodes, rest)?;
    way.top.row[nibble as usize] = lower;
    Ok(())
}

// Goes on by a nibble that has no child, to a node with what is left of the key.
fn sprout(
    nodes: &Nodes,
    way: &mut OpenWay,
    key: &[u8],
    nibble: u8,
    next: usize,
) -> Result<(), AllocError>
    requires way { IsWay nodes.now way.old }
    requires along { IsAlong key.now way.old }
    requires goes { GoesBy (shape_of way.old.top) key.now way.old.at nibble next }
    requires next { next ≡ way.old.at + length way.old.top.part + 1 }
    requires none { child way.old.top.row nibble ≡ None }
    ensures steady { OnOk result (Steady nodes.now nodes.now way.old way.new 1 0) }
    ensures along { OnOk result (IsAlong key.now way.new) }
    ensures ends { OnOk result (way.new.top.part ≡ left key.now way.new.at) }
{
    let part = part_in(&mut way.rest, nodes.allocator(), key, next)?;
    way.push(nibble, next, bare(part))?;
    Ok(())
}

// Gives the last node, which stands for nothing, what is left of a key as its part.
fn regrow(nodes: &Nodes, way: &mut OpenWay, key: &[u8]) -> Result<(), AllocError>
    requires way { IsWay nodes.now way.old }
    requires bare { is_bare way.old.top ≡ true }
    ensures steady { OnOk result (Steady nodes.now nodes.now way.old way.new 0 0) }
    ensures part { OnOk result (way.new.top.part ≡ left key.now way.new.at) }
    ensures levels { OnOk result (way.new.levels ≡ way.old.levels) }
    ensures at { OnOk result (way.new.at ≡ way.old.at) }
{
    let part = part_in(&mut way.rest, nodes.allocator(), key, way.at)?;
    way.top.part = part;
    Ok(())
}

// Goes on to a new node at which the key ends, which leaves the last one's part.
fn fork(nodes: &mut Nodes, way: &mut OpenWay, key: &[u8], shared: usize) -> Result<(), AllocError>
    requires way { IsWay nodes.old way.old }
    requires along { IsAlong key.now way.old }
    requires parts { Parts (shape_of way.old.top) key.now way.old.at shared }
    ensures steady { OnOk result (Steady nodes.old nodes.new way.old way.new (length (left key.now way.old.at) + 1) 0) }
    ensures along { OnOk result (IsAlong key.now way.new) }
    ensures ends { OnOk result (stripped way.new.top.part (left key.now way.new.at) ≡ Some []) }
    ensures grows { Extends nodes.old nodes.new }
{
    split(nodes, way, shared)?;
    let place = way.at + shared;
    match nibble_at(key, place) {
        None => Ok(()),
        Some(nibble) => {
            sprout(nodes, way, key, nibble, place + 1)?;
            Ok(())
        }
    }
}

// Goes on to a node at which the key ends.
fn reach(nodes: &mut Nodes, way: &mut OpenWay, key: &[u8], stop: Stop) -> Result<(), AllocError>
    requires way { IsWay nodes.old way.old }
    requires along { IsAlong key.now way.old }
    requires stop { HeadsSo (length nodes.old) way.old.top key.now way.old.at (Stops stop) }
    ensures steady { OnOk result (Steady nodes.old nodes.new way.old way.new (length (left key.now way.old.at) + 1) 0) }
    ensures along { OnOk result (IsAlong key.now way.new) }
    ensures ends { OnOk result (stripped way.new.top.part (left key.now way.new.at) ≡ Some []) }
    ensures grows { Extends nodes.old nodes.new }
{
    if is_bare(&way.top) {
        regrow(nodes, way, key)?;
        return Ok(());
    }
    match stop {
        Stop::Here => Ok(()),
        Stop::Sprout { nibble, next } => {
            sprout(nodes, way, key, nibble, next)?;
            Ok(())
        }
        Stop::Apart { shared } => {
            fork(nodes, way, key, shared)?;
            Ok(())
        }
    }
}

// Puts a value at a key along which the way goes, and tells whether it had one.
fn put_along(
    nodes: &mut Nodes,
    way: &mut OpenWay,
    key: &[u8],
    value: &[u8],
) -> Result<bool, AllocError>
    requires way { IsWay nodes.old way.old }
    requires along { IsAlong key.now way.old }
    ensures put { OnOk result (Alters nodes.old nodes.new way.old way.new (nibbles key.now) (Some value.now)
        (length (nibbles key.now) + 1) 0) }
    ensures found { IfOk result (λ found. found ≡ is_some (holds nodes.old way.old (nibbles key.now))) }
    ensures along { OnOk result (IsAlong key.now way.new) }
    ensures grows { Extends nodes.old nodes.new }
{
    let held = NodeBytes::of(nodes.allocator(), value)?;
    let stop = descend(nodes, way, key)?;
    reach(nodes, way, key, stop)?;
    let found = way.top.value.is_some();
    way.top.value = Some(held);
    Ok(found)
}

// Takes the value at a key out, along which the way goes, and tells whether it had one.
fn cut_along(nodes: &Nodes, way: &mut OpenWay, key: &[u8]) -> Result<bool, AllocError>
    requires way { IsWay nodes.now way.old }
    requires along { IsAlong key.now way.old }
    ensures cut { OnOk result (Alters nodes.now nodes.now way.old way.new (nibbles key.now) None
        (length (nibbles key.now) + 1) 0) }
    ensures found { IfOk result (λ found. found ≡ is_some (holds nodes.now way.old (nibbles key.now))) }
    ensures along { OnOk result (IsAlong key.now way.new) }
{
    match descend(nodes, way, key)? {
        Stop::Here => {
            let found = way.top.value.is_some();
            way.top.value = None;
            Ok(found)
        }
        Stop::Sprout { nibble: _, next: _ } => Ok(false),
        Stop::Apart { shared: _ } => Ok(false),
    }
}

// Works a change in, and tells whether its key had a value.
#[tactic(auto, using(crate::proofs::Moves::altered_behind, crate::proofs::Moves::found_same, crate::proofs::Sets::extends_trans))]
fn work_in(
    nodes: &mut Nodes,
    way: &mut OpenWay,
    last: &[u8],
    change: &Change<'_>,
) -> Result<bool, AllocError>
    requires way { IsWay nodes.old way.old }
    requires along { IsAlong last.now way.old }
    ensures alters { OnOk result (Alters nodes.old nodes.new way.old way.new (nibbles change.now.0) change.now.1
        (length (nibbles change.now.0) + 1) 0) }
    ensures found { IfOk result (λ found. found ≡ is_some (holds nodes.old way.old (nibbles change.now.0))) }
    ensures along { OnOk result (IsAlong change.now.0 way.new) }
    ensures grows { Extends nodes.old nodes.new }
{
    leave(nodes, way, last, change.key)?;
    match change.value {
        None => {
            let found = cut_along(nodes, way, change.key)?;
            Ok(found)
        }
        Some(value) => {
            let found = put_along(nodes, way, change.key, value)?;
            Ok(found)
        }
    }
}

// How many entries there are with a key that was there before or not. A count that passes usize
// counts as want of memory.
fn count_with(count: usize, found: bool) -> Result<usize, AllocError>
    ensures { IfOk result (λ after. after ≡ cond found count (count + 1)) }
{
    if found {
        return Ok(count);
    }
    count.checked_add(1).ok_or(AllocError)
}

// How many there are without it.
fn count_without(count: usize, found: bool) -> usize
    ensures { result ≡ cond found (count - 1) count }
{
    if found {
        return count.saturating_sub(1);
    }
    count
}

// How many entries there are after a change, whose key was there before or not.
fn count_after(count: usize, found: bool, change: &Change<'_>) -> Result<usize, AllocError>
    ensures { IfOk result (λ after. CountsOn found change.now.0 change.now.1 count after) }
{
    match change.value {
        None => Ok(count_without(count, found)),
        Some(_) => {
            let after = count_with(count, found)?;
            Ok(after)
        }
    }
}

// Works a change in, and counts on.
fn count_in(
    nodes: &mut Nodes,
    way: &mut OpenWay,
    last: &[u8],
    change: &Change<'_>,
    count: &mut usize,
) -> Result<(), AllocError>
    requires way { IsWay nodes.old way.old }
    requires along { IsAlong last.now way.old }
    ensures alters { OnOk result (Alters nodes.old nodes.new way.old way.new (nibbles change.now.0) change.now.1
        (length (nibbles change.now.0) + 1) 0) }
    ensures counts { OnOk result (CountsAll (holds nodes.old way.old) (change.now ∷ []) count.old count.new) }
    ensures along { OnOk result (IsAlong change.now.0 way.new) }
    ensures grows { Extends nodes.old nodes.new }
{
    let found = work_in(nodes, way, last, change)?;
    let after = count_after(*count, found, change)?;
    *count = after;
    Ok(())
}

// Closes all nodes.
#[tactic(auto, using(crate::proofs::Moves::steady_refl, crate::proofs::Moves::some_levels))]
fn finish(nodes: &mut Nodes, way: OpenWay) -> Result<Option<u32>, AllocError>
    requires { IsWay nodes.old way }
    ensures there { IfOk result (λ id. IsIn (length nodes.new) id) }
    ensures same { IfOk result (λ id. (q : Items ℕ) → found_in nodes.new id q ≡ holds nodes.old way q) }
    ensures few { OnOk result (length nodes.new ≤ length nodes.old + length way.levels + 1) }
    ensures cost { IfOk result (λ id. cost_in nodes.new id ≤ way_cost nodes.old way) }
    ensures grows { Extends nodes.old nodes.new }
{
    let mut way = way;
    'up: while way.at > 0 {
        close(nodes, &mut way)?;
    }
    let OpenWay {
        levels: _,
        top,
        at: _,
        rest: _,
    } = way;
    let id = settle_open(nodes, top)?;
    Ok(id)
}

// Works all changes in, and counts on.
#[tactic(auto, using(crate::proofs::Merged::merging_first, crate::proofs::Merged::merging_done))]
fn merge_from(
    nodes: &mut Nodes,
    root: Option<u32>,
    changes: &[Change<'_>],
    count: &mut usize,
) -> Result<Option<u32>, AllocError>
    requires { IsIn (length nodes.old) root }
    ensures merges { IfOk result (λ id. Merges nodes.old nodes.new root id changes.now count.old count.new) }
    ensures grows { Extends nodes.old nodes.new }
{
    let mut way = start(nodes, root)?;
    let mut last: &[u8] = &[];
    for change in changes {
        count_in(nodes, &mut way, last, change, count)?;
        last = change.key;
    }
    let id = finish(nodes, way)?;
    Ok(id)
}

fn named(id: Option<u32>) -> Option<NodeId>
    ensures { name_in result ≡ id }
{
    match id {
        None => None,
        Some(id) => Some(NodeId(id)),
    }
}

fn number_of(root: Option<NodeId>) -> Option<u32>
    ensures { result ≡ name_in root }
{
    match root {
        None => None,
        Some(id) => Some(id.0),
    }
}

// Whether the map of a root has the key of a change.
fn has_key(nodes: &Nodes, root: Option<NodeId>, change: &Change<'_>) -> bool
    requires { IsRoot nodes.now root }
    ensures { result ≡ is_some (map.get (contents nodes.now root) change.now.0) }
{
    nodes.find(root, change.key).is_some()
}

// The root after a key is taken out, for which there is room.
fn cut_within(
    nodes: &mut Nodes,
    root: Option<NodeId>,
    key: &[u8],
) -> Result<Option<NodeId>, AllocError>
    requires root { IsRoot nodes.old root }
    requires room { length nodes.old + 4 + 2 * length (nibbles key.now) ≤ 2 ^ 32 }
    ensures cut { IfOk result (λ id. IsChanged nodes.old nodes.new root id
        (map.remove (contents nodes.old root) key.now) (2 * length (nibbles key.now) + 3)) }
    ensures kept { Keeps nodes.old nodes.new }
    ensures few { length nodes.new ≤ length nodes.old + 2 * length (nibbles key.now) + 3 }
    ensures err { OnErr result (nodes.new ≡ nodes.old) }
{
    match nodes.cut(root, key) {
        Ok(id) => Ok(id),
        Err(NodesFault::Memory) => Err(AllocError),
        Err(NodesFault::Full { .. }) => unreachable!(),
    }
}

// The root after a value is put at a key, for which there is room.
fn put_within(
    nodes: &mut Nodes,
    root: Option<NodeId>,
    key: &[u8],
    value: &[u8],
) -> Result<NodeId, AllocError>
    requires root { IsRoot nodes.old root }
    requires room { length nodes.old + 4 + 2 * length (nibbles key.now) ≤ 2 ^ 32 }
    ensures put { IfOk result (λ id. IsChanged nodes.old nodes.new root (Some id)
        (map.insert (contents nodes.old root) key.now value.now) (2 * length (nibbles key.now) + 3)) }
    ensures kept { Keeps nodes.old nodes.new }
    ensures few { length nodes.new ≤ length nodes.old + 2 * length (nibbles key.now) + 3 }
    ensures err { OnErr result (nodes.new ≡ nodes.old) }
{
    match nodes.put(root, key, value) {
        Ok(id) => Ok(id),
        Err(NodesFault::Memory) => Err(AllocError),
        Err(NodesFault::Full { .. }) => unreachable!(),
    }
}

// The root after a single change, for which there is room.
fn change_root(
    nodes: &mut Nodes,
    root: Option<NodeId>,
    change: &Change<'_>,
) -> Result<Option<NodeId>, AllocError>
    requires root { IsRoot nodes.old root }
    requires room { length nodes.old + 4 + 2 * length (nibbles change.now.0) ≤ 2 ^ 32 }
    ensures changed { IfOk result (λ id. IsChanged nodes.old nodes.new root id
        (with_value (contents nodes.old root) change.now.0 change.now.1) (2 * length (nibbles change.now.0) + 3)) }
    ensures kept { Keeps nodes.old nodes.new }
    ensures few { length nodes.new ≤ length nodes.old + 2 * length (nibbles change.now.0) + 3 }
    ensures err { OnErr result (nodes.new ≡ nodes.old) }
{
    match change.value {
        None => cut_within(nodes, root, change.key),
        Some(value) => match put_within(nodes, root, change.key, value) {
            Ok(id) => Ok(Some(id)),
            Err(e) => Err(e),
        },
    }
}

// A single change, for which there is room.
#[tactic(auto, using(crate::proofs::Changed::keeps_refl))]
fn change_one(
    nodes: &mut Nodes,
    from: CountedRoot,
    change: &Change<'_>,
) -> Result<CountedRoot, AllocError>
    requires root { IsRoot nodes.old from.root }
    requires room { length nodes.old + 4 + 2 * length (nibbles change.now.0) ≤ 2 ^ 32 }
    requires count { from.count ≡ length (map.entries (contents nodes.old from.root)) }
    ensures changed { IfOk result (λ to. IsChanged nodes.old nodes.new from.root to.root
        (with_value (contents nodes.old from.root) change.now.0 change.now.1) (2 * length (nibbles change.now.0) + 3)) }
    ensures counted { IfOk result (λ to. to.count ≡ length (map.entries (contents nodes.new to.root))) }
    ensures kept { Keeps nodes.old nodes.new }
    ensures few { length nodes.new ≤ length nodes.old + 2 * length (nibbles change.now.0) + 3 }
    ensures err { OnErr result (nodes.new ≡ nodes.old) }
{
    let found = has_key(nodes, from.root, change);
    let count = count_after(from.count, found, change)?;
    let root = change_root(nodes, from.root, change)?;
    Ok(CountedRoot { root, count })
}

// Several changes.
#[tactic(auto, using(crate::proofs::Changed::keeps_extends, crate::proofs::Changed::cut_back))]
fn change_several(
    nodes: &mut Nodes,
    from: CountedRoot,
    changes: &[Change<'_>],
) -> Result<CountedRoot, AllocError>
    requires root { IsRoot nodes.old from.root }
    requires count { from.count ≡ length (map.entries (contents nodes.old from.root)) }
    requires several { 2 ≤ length changes.now }
    ensures merged { IfOk result (λ to. IsChanged nodes.old nodes.new from.root to.root
        (merged changes.now (contents nodes.old from.root)) (merge_weight changes.now)) }
    ensures counted { IfOk result (λ to. to.count ≡ length (map.entries (contents nodes.new to.root))) }
    ensures kept { Keeps nodes.old nodes.new }
    ensures few { length nodes.new ≤ length nodes.old + merge_weight changes.now }
    ensures err { OnErr result (nodes.new ≡ nodes.old) }
{
    let before = nodes.len();
    let _held = nodes.count();
    let mut count = from.count;
    let changed = merge_from(nodes, number_of(from.root), changes, &mut count);
    let _count = nodes.count();
    match changed {
        Ok(id) => Ok(CountedRoot {
            root: named(id),
            count,
        }),
        Err(e) => {
            nodes.truncate(before);
            Err(e)
        }
    }
}

// Changes for which there is room.
#[tactic(auto, using(crate::proofs::Merged::merged_none, crate::proofs::Merged::merged_one, crate::proofs::Merged::room_one, crate::proofs::Changed::keeps_refl))]
fn change_all(
    nodes: &mut Nodes,
    from: CountedRoot,
    changes: &[Change<'_>],
) -> Result<CountedRoot, AllocError>
    requires root { IsRoot nodes.old from.root }
    requires count { from.count ≡ length (map.entries (contents nodes.old from.root)) }
    requires room { length nodes.old + 1 + merge_weight changes.now ≤ 2 ^ 32 }
    ensures merged { IfOk result (λ to. IsChanged nodes.old nodes.new from.root to.root
        (merged changes.now (contents nodes.old from.root)) (merge_weight changes.now)) }
    ensures counted { IfOk result (λ to. to.count ≡ length (map.entries (contents nodes.new to.root))) }
    ensures kept { Keeps nodes.old nodes.new }
    ensures few { length nodes.new ≤ length nodes.old + merge_weight changes.now }
    ensures err { OnErr result (nodes.new ≡ nodes.old) }
{
    if changes.len() == 0 {
        return Ok(from);
    }
    if changes.len() == 1 {
        return change_one(nodes, from, &changes[0]);
    }
    change_several(nodes, from, changes)
}

// What is left of this room for nodes after a change; `None` where it is too little for it.
fn room_after(room: u64, change: &Change<'_>) -> Option<u64>
    requires { room < 2 ^ 32 }
    ensures left { IfSome result (λ left. left + (2 * length (nibbles change.now.0) + 3) ≡ room) }
    ensures none { result ≡ None → room < 2 * length (nibbles change.now.0) + 3 }
{
    if change.key.len() >= 1 << 30 {
        return None;
    }
    let weight = 4 * change.key.len() as u64 + 3;
    if weight > room {
        return None;
    }
    Some(room - weight)
}

impl Nodes {
    /// How many of the changes, the first ones, there is room for in one call of `merge`.
    pub fn fitting(&self, changes: &[Change<'_>]) -> usize
        ensures within { result ≤ length changes.now }
        ensures room { length self.now + 1 + merge_weight (take result changes.now) ≤ 2 ^ 32 }
        ensures most { result < length changes.now → IsOverfull (length self.now) (take (result + 1) changes.now) }
    {
        let mut room = u64::from(u32::MAX - self.count());
        let mut fitting = 0;
        while fitting < changes.len() {
            let Some(left) = room_after(room, &changes[fitting]) else {
                return fitting;
            };
            room = left;
            fitting += 1;
        }
        fitting
    }

    /// The root of a map with all of these changes, the first one first, and how many entries it has.
    /// Old roots stay. Where keys rise, each node along them is opened once and made once: besides the
    /// nodes of the new trie only the lower halves of nodes that are split above another key, and
    /// nodes that are joined, are made.
    ///
    /// # Errors
    ///
    /// `Full` exactly where the arena holds more than 2^32 - 1 - w nodes, where w is the sum of
    /// 2n + 3 over the changes, with the nibbles n of each key: so for one change it comes where it
    /// does for `put` and `cut`. Want of memory, as which count a value of 2^32 bytes or more, a usage
    /// that passes u64 and a count that passes usize. Each leaves the nodes as they were.
    #[tactic(auto, using(crate::proofs::Changed::keeps_refl, crate::proofs::Merged::room_all, crate::proofs::Merged::overfull_ok, crate::proofs::Merged::overfull_memory, crate::proofs::Merged::overfull_there))]
    pub fn merge(
        &mut self,
        from: CountedRoot,
        changes: &[Change<'_>],
    ) -> Result<CountedRoot, NodesFault>
        requires root { IsRoot self.old from.root }
        requires count { from.count ≡ length (map.entries (contents self.old from.root)) }
        ensures merged { IfOk result (λ to. IsChanged self.old self.new from.root to.root
            (merged changes.now (contents self.old from.root)) (merge_weight changes.now)) }
        ensures counted { IfOk result (λ to. to.count ≡ length (map.entries (contents self.new to.root))) }
        ensures kept { Keeps self.old self.new }
        ensures few { length self.new ≤ length self.old + merge_weight changes.now }
        ensures err { OnErr result (self.new ≡ self.old) }
        ensures full { OverfullsSo (length self.old) changes.now result }
    {
        if self.fitting(changes) < changes.len() {
            return Err(NodesFault::Full {
                nodes: self.count(),
            });
        }
        match change_all(self, from, changes) {
            Ok(to) => Ok(to),
            Err(_) => Err(NodesFault::Memory),
        }
    }
}
