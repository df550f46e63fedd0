//! Keys in order.

ghost use Rattle.std.specs.Prelude.{◌≡◌, ◌<◌, ◌%◌, ◌++◌, length, is_some, true, IfOk, OnOk};
ghost use Rattle.nr_triedef.specs.Node.{IsNibbles, paired};
ghost use Rattle.nr_triedef.specs.Stores.{keys_below};
ghost use Rattle.nr_trienodes.specs.Shape.{shape_at};
ghost use Rattle.nr_trienodes.specs.Roots.{IsRoot, contents};
ghost use Rattle.nr_trienodes.specs.Listing.{FitsSo, BendsSo, TopsSo, IsPlace, AreWhole, place_paths, keys_in};
ghost use Rattle.nr_trienodes.specs.Listing.{own_keys, PushesSo, RowPushed, PlaceListed};

use crate::nodes::{NodeId, Nodes};
use crate::turn::nibble_at;
use nr_bytes::{Blob, List};
use std::alloc::{AllocError, Global};

/// How a part goes on with a prefix from a place on.
#[derive(Clone, Copy, Debug)]
pub(crate) enum Fit {
    /// The prefix ends within the part.
    Ends,
    /// They differ.
    Leaves,
    /// The part ends first. What is left of the prefix is from this place on.
    Goes(usize),
}

fn fit_of(part: &[u8], prefix: &[u8], at: usize) -> Fit
    ensures { FitsSo part.now prefix.now at result }
{
    let mut place = at;
    for n in 0..part.len() {
        let Some(nibble) = nibble_at(prefix, place) else {
            return Fit::Ends;
        };
        if nibble != part[n] {
            return Fit::Leaves;
        }
        place += 1;
    }
    Fit::Goes(place)
}

/// Where the keys are that begin with a prefix.
#[derive(Clone, Copy, Debug)]
pub(crate) enum Bend {
    /// All keys at and below the node begin with it.
    Whole,
    /// None does.
    Nowhere,
    /// They are at and below a child. What is left of the prefix is from `next` on.
    Deeper { nibble: u8, next: usize, child: u32 },
}

// Where those keys at and below a node are that begin with what is left of a prefix.
fn bend_of(nodes: &Nodes, id: u32, prefix: &[u8], at: usize) -> Bend
    requires { id < length nodes.now }
    ensures { BendsSo nodes.now id prefix.now at result }
{
    let _sound = nodes.count();
    let next = match fit_of(nodes.part(id), prefix, at) {
        Fit::Ends => return Bend::Whole,
        Fit::Leaves => return Bend::Nowhere,
        Fit::Goes(place) => place,
    };
    let Some(nibble) = nibble_at(prefix, next) else {
        return Bend::Whole;
    };
    match nodes.child(id, nibble) {
        None => Bend::Nowhere,
        Some(child) => Bend::Deeper {
            nibble,
            next: next + 1,
            child,
        },
    }
}

/// A node, and the nibbles before its part.
#[derive(Drop)]
pub(crate) struct Place {
    front: Vec<u8>,
    node: u32,
}

// The place of the keys that begin with a prefix; `None` where there are none.
fn top_of(nodes: &Nodes, root: u32, prefix: &[u8]) -> Result<Option<Place>, AllocError>
    requires { root < length nodes.now }
    ensures { IfOk result (λ top. TopsSo nodes.now root prefix.now top) }
{
    let mut front = Vec::new(nodes.allocator());
    let mut node = root;
    let mut at = 0;
    'down: loop {
        match bend_of(nodes, node, prefix, at) {
            Bend::Whole => return Ok(Some(Place { front, node })),
            Bend::Nowhere => return Ok(None),
            Bend::Deeper {
                nibble,
                next,
                child,
            } => {
                front.extend_from_slice(nodes.part(node))?;
                front.push(nibble)?;
                node = child;
                at = next;
            }
        }
    }
}

fn bytes_of(alloc: Global, key: &[u8]) -> Result<Blob, AllocError>
    requires small { IsNibbles key.now }
    requires even { length key.now % 2 ≡ 0 }
    ensures { IfOk result (λ bytes. bytes ≡ paired key.now) }
{
    let mut bytes = Vec::with_capacity(alloc, key.len() / 2)?;
    for i in 0..key.len() / 2 {
        bytes.push(16 * key[2 * i] + key[2 * i + 1])?;
    }
    Ok(Blob::of(bytes))
}

// Room for a nibble and a part behind a copied key.
const ROOM: usize = 16;

// A key once more, with some room behind it.
fn with_room(alloc: Global, key: &[u8]) -> Result<Vec<u8>, AllocError>
    ensures items { IfOk result (λ copy. copy.items ≡ key.now) }
{
    let mut copy = Vec::with_capacity(alloc, key.len().saturating_add(ROOM))?;
    copy.extend_from_slice(key)?;
    Ok(copy)
}

fn push_child(
    alloc: Global,
    places: &mut Vec<Place>,
    child: Option<u32>,
    key: &[u8],
    nibble: u8,
) -> Result<(), AllocError>
    ensures { OnOk result (PushesSo places.old.items places.new.items child key.now nibble) }
{
    if let Some(node) = child {
        let mut front = with_room(alloc, key)?;
        front.push(nibble)?;
        places.push(Place { front, node })?;
    }
    Ok(())
}

// The children of a node, the last one first, behind its key.
fn push_children(
    nodes: &Nodes,
    places: &mut Vec<Place>,
    node: u32,
    key: &[u8],
) -> Result<(), AllocError>
    requires there { node < length nodes.now }
    requires small { IsNibbles key.now }
    ensures { OnOk result (RowPushed nodes.now (shape_at nodes.now node).below key.now 0 places.old.items
        places.new.items) }
{
    let alloc = nodes.allocator();
    let row = nodes.row(node);
    let mut left = 16u8;
    'row: while left > 0 {
        left -= 1;
        push_child(alloc, places, row[left as usize], key, left)?;
    }
    Ok(())
}

// Lists the key of a node, where it has a value.
fn list_key(nodes: &Nodes, node: u32, key: &[u8], keys: &mut Vec<Blob>) -> Result<(), AllocError>
    requires there { node < length nodes.now }
    requires small { IsNibbles key.now }
    requires even { is_some (shape_at nodes.now node).value ≡ true → length key.now % 2 ≡ 0 }
    ensures { OnOk result (keys.new.items ≡ keys.old.items ++ own_keys nodes.now node key.now) }
{
    if nodes.value(node).is_none() {
        return Ok(());
    }
    let bytes = bytes_of(nodes.allocator(), key)?;
    keys.push(bytes)?;
    Ok(())
}

// Lists the key of a place's node, where it has a value, and leaves its children to be listed next.
fn list_place(
    nodes: &Nodes,
    place: Place,
    keys: &mut Vec<Blob>,
    places: &mut Vec<Place>,
) -> Result<(), AllocError>
    requires place { IsPlace nodes.now place }
    requires whole { AreWhole (place_paths nodes.now place) }
    ensures { OnOk result (PlaceListed nodes.now place keys.old.items keys.new.items places.old.items
        places.new.items) }
{
    let _sound = nodes.count();
    let Place { front, node } = place;
    let mut key = front;
    key.extend_from_slice(nodes.part(node))?;
    list_key(nodes, node, &key, keys)?;
    push_children(nodes, places, node, &key)?;
    Ok(())
}

// The keys at and below a place, in order. The places that wait stand in a list of their own, so the
// machine's stack doesn't grow with the keys.
fn keys_of(nodes: &Nodes, top: Place) -> Result<List<Blob>, AllocError>
    requires place { IsPlace nodes.now top }
    requires whole { AreWhole (place_paths nodes.now top) }
    ensures { IfOk result (λ keys. keys ≡ keys_in (place_paths nodes.now top)) }
{
    let alloc = nodes.allocator();
    let mut keys = Vec::new(alloc);
    let mut places = Vec::new(alloc);
    places.push(top)?;
    'on: while let Some(place) = places.pop() {
        list_place(nodes, place, &mut keys, &mut places)?;
    }
    Ok(List::of(keys))
}

impl Nodes {
    /// The keys of a root's map that begin with a prefix, in the order of their bytes. It finds the
    /// prefix and goes over the nodes below it.
    ///
    /// # Errors
    ///
    /// Where memory ran out.
    pub fn below(&self, root: Option<NodeId>, prefix: &[u8]) -> Result<List<Blob>, AllocError>
        requires { IsRoot self.now root }
        ensures { IfOk result (λ keys. keys ≡ keys_below prefix.now (contents self.now root)) }
    {
        let alloc = self.allocator();
        let Some(root) = root else {
            return Ok(List::of(Vec::new(alloc)));
        };
        let Some(top) = top_of(self, root.0, prefix)? else {
            return Ok(List::of(Vec::new(alloc)));
        };
        let keys = keys_of(self, top)?;
        Ok(keys)
    }
}
