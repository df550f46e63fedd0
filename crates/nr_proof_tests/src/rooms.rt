//! Walks over few texts that stand at many places.

use nr_bytes::{Blob, List};
use nr_ids::Hash32;
use nr_stateless::Partial;
use nr_triedef::value_hash;
use nr_walk::{Texts, WalkFault, bytes_in, room_over};
use std::alloc::{AllocError, Global};
use std::test::Fail;

// Puts a node's text behind the others, and gives its hash.
fn put(texts: &mut Vec<Blob>, text: Vec<u8>) -> Result<Hash32, AllocError> {
    let hash = value_hash(text.as_slice());
    texts.push(Blob::of(text))?;
    Ok(hash)
}

// Puts a hash and a usage behind bytes.
fn put_below(text: &mut Vec<u8>, hashes: &[Hash32], usage: u64) -> Result<(), AllocError> {
    for hash in hashes {
        text.extend_from_slice(hash.0.as_slice())?;
    }
    text.extend_from_slice(usage.to_le_bytes().as_slice())
}

// A leaf with a value of one byte, where so many nibbles stand before it.
fn leaf(alloc: Global, levels: usize) -> Result<Vec<u8>, AllocError> {
    let first = if levels % 2 == 0 { 0x20 } else { 0x30 };
    let mut text = Vec::from_slice(alloc, &[0, 1, 0, 0, 0, first, 1, 0, 0, 0])?;
    put_below(&mut text, &[value_hash(b"v")], 103)?;
    Ok(text)
}

// A branch of sixteen children alike.
fn branch(alloc: Global, child: Hash32, usage: u64) -> Result<Vec<u8>, AllocError> {
    let mut text = Vec::from_slice(alloc, &[2, 0xff, 0xff])?;
    put_below(&mut text, &[child; 16], usage)?;
    Ok(text)
}

// A text for each level of a trie below 07, in which each branch has sixteen children alike; and the
// root.
fn nested(alloc: Global, levels: usize) -> Result<(List<Blob>, Hash32), AllocError> {
    let mut texts = Vec::new(alloc);
    texts.push(Blob::of(Vec::from_slice(alloc, b"v")?))?;
    let mut top = put(&mut texts, leaf(alloc, levels)?)?;
    let mut usage = 103_u64;
    for _ in 0..levels {
        usage = usage.wrapping_mul(16).wrapping_add(50);
        top = put(&mut texts, branch(alloc, top, usage)?)?;
    }
    let mut front = Vec::from_slice(alloc, &[1, 2, 0, 0, 0, 0, 7])?;
    put_below(&mut front, &[top], usage.wrapping_add(54))?;
    let root = put(&mut texts, front)?;
    Ok((List::of(texts), root))
}

// How many entries a walk for no account finds in so much room.
fn found_in(alloc: Global, levels: usize, room: u64) -> Result<Result<usize, WalkFault>, Fail> {
    let (list, root) = nested(alloc, levels)?;
    let texts = Texts::new(alloc, &list)?.with_room(room);
    let accounts = List::of(Vec::new(alloc));
    match Partial::walk(alloc, &texts, &root, &accounts) {
        Ok((_, found)) => Ok(Ok(found.inner().len())),
        Err(fault) => Ok(Err(fault)),
    }
}

fn is_refused(found: &Result<usize, WalkFault>) -> bool {
    match found {
        Err(WalkFault::Memory) => true,
        _ => false,
    }
}

fn has_found(found: &Result<usize, WalkFault>, count: usize) -> bool {
    match found {
        Ok(some) => *some == count,
        Err(_) => false,
    }
}

// The room is that of the texts' bytes: one, 50, three times 523, and 47.
#[test]
fn a_room_is_by_the_length(rt: HostRuntime) -> Result<(), Fail> {
    let (list, _) = nested(rt.alloc(), 3)?;
    let texts = Texts::new(rt.alloc(), &list)?;
    assert_eq!(rt; bytes_in(&list), 1_667);
    assert_eq!(rt; texts.room(), 1_074_168_576);
    assert_eq!(rt; room_over(u64::MAX), u64::MAX);
    Ok(())
}

// A branch below 07 with sixteen leaves: the branch takes its text of 523 bytes and 64, each leaf its
// place of two nibbles, its text of 50 bytes and 64, each entry its key of two bytes, its value of one
// and 64.
#[test]
fn a_walk_takes_its_room_to_the_byte(rt: HostRuntime) -> Result<(), Fail> {
    assert!(rt; has_found(&found_in(rt.alloc(), 1, 3_515)?, 16));
    assert!(rt; is_refused(&found_in(rt.alloc(), 1, 3_514)?));
    Ok(())
}

// Each level more is sixteen times as many nodes, of which no walk has room for more than it is given.
#[test]
fn nested_texts_end_with_the_room(rt: HostRuntime) -> Result<(), Fail> {
    let room = 1 << 16;
    assert!(rt; has_found(&found_in(rt.alloc(), 1, room)?, 16));
    assert!(rt; has_found(&found_in(rt.alloc(), 2, room)?, 256));
    for levels in [3, 8, 12] {
        assert!(rt; is_refused(&found_in(rt.alloc(), levels, room)?));
    }
    Ok(())
}
