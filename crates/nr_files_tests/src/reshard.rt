//! Files of the third version: what is read of one, and the faults of changed ones. The expected
//! places are counted by hand along the form of the file.

use nr_blocks::BlocksFault;
use nr_reshard::{ChainFault, ChainFile, read_chain};
use std::alloc::Global;
use std::process::Abort;
use std::test::Fail;

/// Other boundaries from height 2, parted at `mm`; block 1 with one empty chunk at price 5, and
/// block 2 with two empty chunks at price 7.
const CHANGED: [u8; 98] = *b"\
    NRB3\x01\x02\0\0\0\0\0\0\0\x01\0\0\0\x02\0\0\0mm\x02\0\0\0\
    \x01\0\0\0\0\0\0\0\x09\0\0\0\0\0\0\0\x05\0\0\0\0\0\0\0\x01\0\0\0\x01\0\0\0\0\
    \x02\0\0\0\0\0\0\0\x09\0\0\0\0\0\0\0\x07\0\0\0\0\0\0\0\x02\0\0\0\x01\0\0\0\0\x01\0\0\0\0\
";

/// One block of one missing chunk, and no other boundaries.
const SAME: [u8; 38] = *b"\
    NRB3\0\x01\0\0\0\x01\0\0\0\0\0\0\0\0\0\0\0\0\0\0\0\0\0\0\0\0\0\0\0\x01\0\0\0\0\
";

fn read(alloc: Global, bytes: &[u8], shards: u32) -> Result<ChainFile, ChainFault> {
    match Vec::from_slice(alloc, bytes) {
        Ok(bytes) => read_chain(alloc, bytes, shards),
        Err(_) => Err(ChainFault::Blocks(BlocksFault::Memory)),
    }
}

fn fault_of(alloc: Global, bytes: &[u8], shards: u32) -> Option<ChainFault> {
    match read(alloc, bytes, shards) {
        Ok(_) => None,
        Err(fault) => Some(fault),
    }
}

fn spelling(at: u64) -> Option<ChainFault> {
    Some(ChainFault::Blocks(BlocksFault::Spelling { at }))
}

/// The file with another byte at a place.
fn with_byte(at: usize, byte: u8) -> [u8; 98] {
    let mut all = CHANGED;
    if let Some(old) = all.get_mut(at) {
        *old = byte;
    }
    all
}

/// The height and the count of the other boundaries of a file, and how many blocks it has.
fn shape_of(file: &ChainFile) -> (u64, usize, usize) {
    let count = file.blocks.inner().len();
    match &file.reshard {
        Some(reshard) => (reshard.height.0, reshard.layout.boundaries().len(), count),
        None => (0, 0, count),
    }
}

#[test]
fn other_boundaries_are_read(rt: HostRuntime) {
    let alloc = rt.alloc();
    let mut shape = (9, 9, 9);
    if let Ok(file) = read(alloc, CHANGED.as_slice(), 1) {
        shape = shape_of(&file);
    }
    assert!(rt; shape == (2, 1, 2));
    if let Ok(file) = read(alloc, SAME.as_slice(), 1) {
        shape = shape_of(&file);
    }
    assert!(rt; shape == (0, 0, 1));
}

#[test]
fn earlier_versions_are_read(rt: HostRuntime) {
    let alloc = rt.alloc();
    assert!(rt; fault_of(alloc, b"NRB1\0\0\0\0", 3) == None);
    assert!(rt; fault_of(alloc, b"NRB2\0\0\0\0", 3) == None);
    assert!(rt; fault_of(alloc, b"NRB3\0\0\0\0\0", 3) == None);
    assert!(rt; fault_of(alloc, b"NRB4\0\0\0\0\0", 3) == spelling(0));
    assert!(rt; fault_of(alloc, b"NRB", 3) == spelling(0));
    assert!(rt; fault_of(alloc, b"NRB2\0\0\0", 3) == spelling(4));
}

/// Where the cut file can't be read.
fn place_of(length: usize) -> u64 {
    match length {
        0..=3 => 0,
        4 => 4,
        5..=12 => 5,
        13..=16 => 13,
        17..=22 => 17,
        23..=26 => 23,
        27..=34 => 27,
        35..=42 => 35,
        43..=50 => 43,
        51..=54 => 51,
        55 => 55,
        56..=59 => 56,
        60..=67 => 60,
        68..=75 => 68,
        76..=83 => 76,
        84..=87 => 84,
        88 => 88,
        89..=92 => 89,
        93 => 93,
        _ => 94,
    }
}

#[test]
fn a_cut_file_tells_the_place(rt: HostRuntime) {
    let alloc = rt.alloc();
    for length in 0..CHANGED.len() {
        assert!(rt; fault_of(alloc, &CHANGED[..length], 1) == spelling(place_of(length)));
    }
}

#[test]
fn what_stands_before_the_blocks_is_judged(rt: HostRuntime) -> Result<(), Fail> {
    let alloc = rt.alloc();
    let flag = with_byte(4, 2);
    assert!(rt; fault_of(alloc, &flag, 1) == spelling(4));
    let many = with_byte(13, 16);
    assert!(rt; fault_of(alloc, &many, 1) == spelling(13));
    let id = with_byte(22, b'M');
    assert!(rt; fault_of(alloc, &id, 1) == spelling(17));
    let mut rest = Vec::from_slice(alloc, CHANGED.as_slice())?;
    rest.push(0)?;
    assert!(rt; fault_of(alloc, &rest, 1) == spelling(98));
    Ok(())
}

#[test]
fn blocks_are_judged_by_the_boundaries_at_their_height(rt: HostRuntime) {
    let alloc = rt.alloc();
    let wide = BlocksFault::ShardCount { height: 1 };
    assert!(rt; fault_of(alloc, CHANGED.as_slice(), 2) == Some(ChainFault::Blocks(wide)));
    let early = with_byte(5, 1);
    assert!(rt; fault_of(alloc, &early, 1) == Some(ChainFault::Blocks(wide)));
    let late = with_byte(5, 3);
    let narrow = BlocksFault::ShardCount { height: 2 };
    assert!(rt; fault_of(alloc, &late, 1) == Some(ChainFault::Blocks(narrow)));
    let order = with_byte(60, 3);
    let third = BlocksFault::HeightOrder { height: 3 };
    assert!(rt; fault_of(alloc, &order, 1) == Some(ChainFault::Blocks(third)));
}

fn changed_at(height: u64) -> Option<ChainFault> {
    Some(ChainFault::Reshard { height })
}

/// Bytes one after the other.
fn joined(alloc: Global, front: &[u8], middle: &[u8], back: &[u8]) -> Result<Vec<u8>, Fail> {
    let mut all = Vec::from_slice(alloc, front)?;
    all.extend_from_slice(middle)?;
    all.extend_from_slice(back)?;
    Ok(all)
}

#[test]
fn boundaries_change_between_whole_blocks(rt: HostRuntime) -> Result<(), Fail> {
    let alloc = rt.alloc();
    // Block 1 misses its chunk.
    let before = joined(alloc, &CHANGED[..55], b"\0", &CHANGED[60..])?;
    assert!(rt; fault_of(alloc, &before, 1) == changed_at(2));
    // Block 2 misses its second chunk.
    let behind = joined(alloc, &CHANGED[..93], b"\0", b"")?;
    assert!(rt; fault_of(alloc, &behind, 1) == changed_at(2));
    // From height 1, where block 1 has a second chunk, which is missing.
    let early = with_byte(5, 1);
    let wide = joined(
        alloc,
        &early[..51],
        b"\x02\0\0\0\x01\0\0\0\0\0",
        &early[60..],
    )?;
    assert!(rt; fault_of(alloc, &wide, 1) == changed_at(1));
    Ok(())
}

/// Other boundaries from height 3, parted at `mm`, and two blocks, each with one empty chunk.
const TOO_LATE: [u8; 93] = *b"\
    NRB3\x01\x03\0\0\0\0\0\0\0\x01\0\0\0\x02\0\0\0mm\x02\0\0\0\
    \x01\0\0\0\0\0\0\0\x09\0\0\0\0\0\0\0\x05\0\0\0\0\0\0\0\x01\0\0\0\x01\0\0\0\0\
    \x02\0\0\0\0\0\0\0\x09\0\0\0\0\0\0\0\x07\0\0\0\0\0\0\0\x01\0\0\0\x01\0\0\0\0\
";

#[test]
fn boundaries_change_at_a_block_that_is_there(rt: HostRuntime) {
    let alloc = rt.alloc();
    assert!(rt; fault_of(alloc, TOO_LATE.as_slice(), 1) == changed_at(3));
}
