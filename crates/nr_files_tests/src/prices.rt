//! Blocks files with prices, whole, cut and damaged.

use crate::files::{with_byte, with_rest};
use crate::reading::{blocks_fault, read};
use nr_blocks::{BlocksFault, BlocksFile, Version};
use nr_records::{Spelled, decode, encode};
use std::test::Fail;

/// In block 1 alice sends 5 to bob at price 5, and block 2 is empty at the greatest price.
const PRICED: [u8; 184] = *b"\
    NRB2\x02\0\0\0\x01\0\0\0\0\0\0\0\0\0\0\0\0\0\0\0\x05\0\0\0\0\0\0\0\x01\0\0\0\x01\
    \x01\0\0\0\x05\0\0\0alice\0\x01\x01\x01\x01\x01\x01\x01\x01\x01\x01\x01\x01\x01\
    \x01\x01\x01\x01\x01\x01\x01\x01\x01\x01\x01\x01\x01\x01\x01\x01\x01\x01\x01\x01\
    \0\0\0\0\0\0\0\x03\0\0\0bob\0\0\0\0\0\0\0\0\0\0\0\0\0\0\0\0\0\0\0\0\0\0\0\0\0\0\
    \0\0\0\0\0\0\x01\0\0\0\x03\x05\0\0\0\0\0\0\0\0\0\0\0\0\0\0\0\x02\0\0\0\0\0\0\0\0\
    \0\0\0\0\0\0\0\xff\xff\xff\xff\xff\xff\xff\xff\x01\0\0\0\x01\0\0\0\0\
";

#[test]
fn prices_are_read(rt: HostRuntime) {
    let mut prices = [None; 2];
    if let Ok(blocks) = read(rt.alloc(), PRICED.as_slice(), 1) {
        for (place, block) in blocks.inner().iter().enumerate() {
            if place < 2 {
                prices[place] = block.price;
            }
        }
    }
    assert!(rt; prices[0] == Some(5));
    assert!(rt; prices[1] == Some(u64::MAX));
}

#[test]
fn no_block_has_no_price(rt: HostRuntime) {
    let alloc = rt.alloc();
    assert!(rt; blocks_fault(alloc, b"NRB1\0\0\0\0".as_slice(), 3) == None);
    assert!(rt; blocks_fault(alloc, b"NRB2\0\0\0\0".as_slice(), 3) == None);
}

/// Where the cut file can't be read.
fn place_of(length: usize) -> u64 {
    match length {
        0..=3 => 0,
        4..=7 => 4,
        8..=15 => 8,
        16..=23 => 16,
        24..=31 => 24,
        32..=35 => 32,
        36 => 36,
        134 => 134,
        135..=150 => 135,
        151..=158 => 151,
        159..=166 => 159,
        167..=174 => 167,
        175..=178 => 175,
        179 => 179,
        _ => 180,
    }
}

#[test]
fn cut_blocks_tell_the_place(rt: HostRuntime) {
    let alloc = rt.alloc();
    for length in 0..37 {
        let at = place_of(length);
        assert!(rt;
            blocks_fault(alloc, &PRICED[..length], 1) == Some(BlocksFault::Spelling { at })
        );
    }
    for length in 134..184 {
        let at = place_of(length);
        assert!(rt;
            blocks_fault(alloc, &PRICED[..length], 1) == Some(BlocksFault::Spelling { at })
        );
    }
}

/// Bytes that stand at a place, of so many shards, and the fault.
const CHANGED: [(usize, u8, u32, BlocksFault); 5] = [
    (3, b'0', 1, BlocksFault::Spelling { at: 0 }),
    (134, 4, 1, BlocksFault::Stake { at: 134 }),
    (151, 3, 1, BlocksFault::HeightOrder { height: 3 }),
    (151, 3, 2, BlocksFault::ShardCount { height: 1 }),
    // The price is read as 5 chunks, of which the last has an account id of one byte.
    (3, b'1', 1, BlocksFault::Spelling { at: 37 }),
];

#[test]
fn blocks_are_judged(rt: HostRuntime) -> Result<(), Fail> {
    let alloc = rt.alloc();
    let rest = with_rest(alloc, PRICED.as_slice())?;
    assert!(rt; blocks_fault(alloc, &rest, 1) == Some(BlocksFault::Spelling { at: 184 }));
    for (at, byte, shards, fault) in CHANGED {
        let bytes = with_byte(alloc, PRICED.as_slice(), at, byte)?;
        assert!(rt; blocks_fault(alloc, &bytes, shards) == Some(fault), "{at}");
    }
    Ok(())
}

#[test]
fn a_file_keeps_its_version(rt: HostRuntime) -> Result<(), Fail> {
    let alloc = rt.alloc();
    let file: BlocksFile = decode(alloc, PRICED.as_slice())?;
    assert!(rt; file.version == Version::Two);
    assert!(rt; encode(alloc, &file)?.inner() == PRICED.as_slice());
    let copy = file.duplicate(alloc)?;
    assert!(rt; copy == file);
    let unpriced = BlocksFile {
        version: Version::One,
        blocks: copy.blocks,
    };
    assert!(rt; encode(alloc, &unpriced).is_err());
    Ok(())
}
