//! The room of a walk: how many bytes all that it reads and gains may take, each time that it comes
//! to a text anew. So texts that stand at many places cost no more than the length of their file
//! allows.

ghost use Rattle.std.specs.Prelude.{◌≡◌, ◌+◌, ◌≤◌, IfOk};

use crate::texts::Texts;
use crate::told::children_of;
use crate::walking::Gain;
use nr_bytes::{Blob, List};
use nr_ids::Hash32;
use nr_triedef::Node;
use std::alloc::{AllocError, Global};

// What every walk may take.
const ROOM: u64 = 1 << 30;

// What it may take more for each byte of the file.
const ROOM_OF_BYTE: u64 = 256;

// What each node and each gain takes beside its bytes.
const EACH: u64 = 64;

/// The room of a walk over so many bytes.
pub fn room_over(bytes: u64) -> u64 {
    bytes.saturating_mul(ROOM_OF_BYTE).saturating_add(ROOM)
}

/// How many bytes these have.
pub fn bytes_in(list: &List<Blob>) -> u64 {
    let mut bytes: u64 = 0;
    for one in list.inner() {
        bytes = bytes.saturating_add(one.inner().len() as u64);
    }
    bytes
}

fn less(room: u64, bytes: u64) -> Result<u64, AllocError>
    ensures { IfOk result (λ left. left + bytes ≡ room) }
{
    room.checked_sub(bytes).ok_or(AllocError)
}

/// What is left of a room behind one thing of so many bytes.
///
/// # Errors
///
/// Where the room is used up, which counts as want of memory.
pub fn room_behind(room: u64, bytes: usize) -> Result<u64, AllocError>
    ensures { IfOk result (λ left. left + bytes + 64 ≡ room) }
{
    less(less(room, EACH)?, bytes as u64)
}

fn room_behind_child(
    texts: &Texts,
    room: u64,
    place: &[u8],
    hash: &Hash32,
) -> Result<u64, AllocError>
    ensures { IfOk result (λ left. left ≤ room) }
{
    let left = room_behind(room, place.len())?;
    match texts.get(hash) {
        None => Ok(left),
        Some(text) => less(left, text.len() as u64),
    }
}

/// What is left of a room behind the children of the node at a place: each takes the length of the
/// place and that of its text, where that is held.
///
/// # Errors
///
/// Where memory ran out, or the room is used up.
pub fn room_behind_children(
    alloc: Global,
    texts: &Texts,
    room: u64,
    place: &[u8],
    node: &Node,
) -> Result<u64, AllocError>
    ensures { IfOk result (λ left. left ≤ room) }
{
    let children = children_of(alloc, node)?;
    let mut left = room;
    for hash in children.inner() {
        left = room_behind_child(texts, left, place, hash)?;
    }
    Ok(left)
}

// What is left of a room behind what a node adds.
pub(crate) fn room_behind_gain(room: u64, gain: &Option<Gain>) -> Result<u64, AllocError>
    ensures { IfOk result (λ left. left ≤ room) }
{
    match gain {
        None => Ok(room),
        Some(Gain::Found(entry)) => {
            let left = room_behind(room, entry.key.inner().len())?;
            less(left, entry.value.inner().len() as u64)
        }
        Some(Gain::Beside(kept)) => room_behind(room, kept.path.inner().len()),
    }
}
