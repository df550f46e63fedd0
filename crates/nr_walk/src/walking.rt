//! The walk: the nodes that are looked at, depth first, and what is gained at each.

ghost use Rattle.std.specs.Prelude.{◌≡◌, ◌∷◌, ◌++◌, [], reverse, IfOk, OnOk};
ghost use Rattle.nr_bytes.specs.Answers.{Gives};
ghost use Rattle.nr_walk.specs.Texts.{memory_fault};
ghost use Rattle.nr_walk.specs.Told.{option_list};
ghost use Rattle.nr_walk.specs.Walking.{stub_of, ended, visited, walk_from, most_nodes, packed};

use crate::fault::WalkFault;
use crate::looking::{look_at, value_text};
use crate::room::{room_behind_children, room_behind_gain};
use crate::searched::Searched;
use crate::sought::Sought;
use crate::texts::Texts;
use crate::told::{Ending, Spot, ending_of, further, part_nibbles, spots_of};
use nr_bytes::{Blob, List};
use nr_columns::Entry;
use nr_ids::Hash32;
use nr_triedef::Node;
use std::alloc::{AllocError, Global};

/// How many nodes a walk looks at, at most.
const MOST_NODES: u64 = 1 << 28;

/// What is known of what stands at a place.
#[derive(Drop)]
pub enum Known {
    /// One value, by its length and SHA-256.
    Value { length: u32, hash: Hash32 },
    /// A trie of several keys that share no front, by its top node's hash and its memory usage.
    Trie { hash: Hash32, usage: u64 },
}

/// Something that isn't searched, at its place by nibbles.
#[derive(Drop)]
pub struct Kept {
    pub path: Blob,
    pub known: Known,
}

/// What a node adds: an entry that is searched, or something that isn't.
#[derive(Drop)]
pub enum Gain {
    Found(Entry),
    Beside(Kept),
}

/// What looking at a node gives: what is gained, and the nodes that are to be looked at next.
#[derive(Drop)]
pub struct Visit {
    pub gain: Option<Gain>,
    pub below: List<Spot>,
}

/// The bytes of nibbles, two for each byte: the first one is the high one.
///
/// # Errors
///
/// Where memory ran out.
pub fn packed(alloc: Global, nibbles: &[u8]) -> Result<Blob, AllocError>
    ensures { IfOk result (λ bytes. bytes ≡ packed nibbles.now) }
{
    let mut bytes = Vec::new(alloc);
    for i in 0..nibbles.len() / 2 {
        bytes.push(16 * (nibbles[2 * i] % 16) + nibbles[2 * i + 1] % 16)?;
    }
    Ok(Blob::of(bytes))
}

// A node beside the way, of which nothing below is known.
fn stub_of(alloc: Global, spot: &Spot, node: &Node) -> Result<Kept, AllocError>
    ensures { IfOk result (λ kept. kept ≡ stub_of spot.now node.now) }
{
    let place = spot.place.inner();
    match node {
        Node::Leaf {
            part,
            length,
            hash,
            ..
        } => {
            let step = part_nibbles(alloc, part.inner())?;
            Ok(Kept {
                path: further(alloc, place, step.inner())?,
                known: Known::Value {
                    length: *length,
                    hash: *hash,
                },
            })
        }
        Node::Extension { part, child, usage } => {
            let step = part_nibbles(alloc, part.inner())?;
            Ok(Kept {
                path: further(alloc, place, step.inner())?,
                known: Known::Trie {
                    hash: *child,
                    usage: usage_behind(*usage, part.inner().len()),
                },
            })
        }
        Node::Branch { usage, .. } => Ok(Kept {
            path: further(alloc, place, &[])?,
            known: Known::Trie {
                hash: spot.hash,
                usage: *usage,
            },
        }),
    }
}

// The usage behind an extension.
fn usage_behind(usage: u64, size: usize) -> u64
    ensures { result ≡ usage - (50 + 2 * size) }
{
    let own = 50 + 2 * size as u128;
    if usage as u128 > own {
        usage - own as u64
    } else {
        0
    }
}

ghost use Rattle.std.specs.Prelude.{◌-◌, ◌+◌, ◌*◌};

// What a value adds, whose key is searched or isn't.
fn ended(
    alloc: Global,
    texts: &Texts,
    sought: &Sought<'_>,
    place: &[u8],
    ending: &Option<Ending>,
) -> Result<Option<Gain>, WalkFault>
    ensures { Gives memory_fault result (ended texts.now sought.now place.now ending.now) }
{
    match ending {
        None => Ok(None),
        Some(ending) => {
            let path = further(alloc, place, ending.step.inner())?;
            if sought.finds(path.inner()) {
                let text = value_text(texts, ending.length, &ending.hash)?;
                let key = packed(alloc, path.inner())?;
                let value = Blob::of(Vec::from_slice(alloc, text)?);
                return Ok(Some(Gain::Found(Entry { key, value })));
            }
            let known = Known::Value {
                length: ending.length,
                hash: ending.hash,
            };
            Ok(Some(Gain::Beside(Kept { path, known })))
        }
    }
}

// Looking at one node, which takes from the room.
#[tactic(auto, unfolding(crate::specs::Walking::visited))]
fn visited(
    alloc: Global,
    texts: &Texts,
    sought: &mut Sought<'_>,
    spot: &Spot,
    room: &mut u64,
) -> Result<Visit, WalkFault>
    ensures same { sought.new ≡ sought.old }
    ensures gives { Gives memory_fault result (visited texts.now sought.old spot.now) }
{
    let node = look_at(alloc, texts, spot)?;
    let place = spot.place.inner();
    *room = room_behind_children(alloc, texts, *room, place, &node)?;
    if !sought.looks(place)? {
        let kept = stub_of(alloc, spot, &node)?;
        return Ok(Visit {
            gain: Some(Gain::Beside(kept)),
            below: List::of(Vec::new(alloc)),
        });
    }
    let ending = ending_of(alloc, &node)?;
    let gain = ended(alloc, texts, sought, place, &ending)?;
    let below = List::of(spots_of(alloc, place, &node)?);
    Ok(Visit { gain, below })
}

fn push_gain(gains: &mut Vec<Gain>, gain: Option<Gain>) -> Result<(), AllocError>
    ensures { OnOk result (gains.new.items ≡ gains.old.items ++ option_list gain) }
{
    if let Some(gain) = gain {
        gains.push(gain)?;
    }
    Ok(())
}

// Puts the nodes that are next before those that wait; the last is looked at first.
fn push_spots(waiting: &mut Vec<Spot>, below: List<Spot>) -> Result<(), AllocError>
    ensures { OnOk result (waiting.new.items ≡ waiting.old.items ++ reverse below) }
{
    let mut spots = below.into_inner();
    while let Some(spot) = spots.pop() {
        waiting.push(spot)?;
    }
    Ok(())
}

fn list_of(alloc: Global, top: Spot) -> Result<Vec<Spot>, AllocError>
    ensures { IfOk result (λ list. list.items ≡ top ∷ []) }
{
    let mut list = Vec::new(alloc);
    list.push(top)?;
    Ok(list)
}

/// What the nodes add that are looked at, depth first from one on.
pub(crate) fn walk_from(
    alloc: Global,
    texts: &Texts,
    searched: &[Searched],
    top: Spot,
) -> Result<List<Gain>, WalkFault>
    ensures { Gives memory_fault result (walk_from texts.now searched.now most_nodes (top ∷ [])) }
{
    let mut gains = Vec::new(alloc);
    let mut waiting = list_of(alloc, top)?;
    let mut sought = Sought::of(alloc, searched)?;
    let mut left = MOST_NODES;
    let mut room = texts.room();
    while let Some(spot) = waiting.pop() {
        if left == 0 {
            return Err(WalkFault::TooMany);
        }
        left -= 1;
        let step = visited(alloc, texts, &mut sought, &spot, &mut room)?;
        room = room_behind_gain(room, &step.gain)?;
        push_gain(&mut gains, step.gain)?;
        push_spots(&mut waiting, step.below)?;
    }
    Ok(List::of(gains))
}
