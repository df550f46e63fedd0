//! Chains of as many blocks as a file may have, by both calls.

use crate::rows::GENESIS;
use crate::setting::{shelf_of, words_of};
use nr_bytes::{MemoryShelf, MemorySink};
use nr_replay::replay;
use nr_top::{Status, serial};
use nr_workers::OpenGate;
use std::alloc::Global;
use std::sync::Wait;
use std::test::Fail;
use std::thread::Threads;

/// The most blocks of a file.
const BLOCKS: u32 = 100_000;

/// Adds a block. The second shard has a chunk only in the first block and in the last.
fn add_block(bytes: &mut Vec<u8>, height: u64, last: u64) -> Result<(), Fail> {
    bytes.extend_from_slice(height.to_le_bytes().as_slice())?;
    bytes.extend_from_slice(b"\0\0\0\0\0\0\0\0\x02\0\0\0\x01\0\0\0\0".as_slice())?;
    if height == 1 || height == last {
        bytes.extend_from_slice(b"\x01\0\0\0\0".as_slice())?;
    } else {
        bytes.extend_from_slice(b"\0".as_slice())?;
    }
    Ok(())
}

/// A blocks file of so many blocks.
fn blocks_of(alloc: Global, count: u32) -> Result<Vec<u8>, Fail> {
    let mut bytes = Vec::from_slice(alloc, b"NRB1".as_slice())?;
    bytes.extend_from_slice(count.to_le_bytes().as_slice())?;
    for below in 0..count {
        add_block(&mut bytes, u64::from(below) + 1, u64::from(count))?;
    }
    Ok(bytes)
}

/// The genesis `G`, and blocks `B` of so many.
fn chain_of(alloc: Global, count: u32) -> Result<MemoryShelf, Fail> {
    let genesis = hex::decode(alloc, GENESIS)?;
    let blocks = blocks_of(alloc, count)?;
    Ok(shelf_of(
        alloc,
        &[("G", genesis.as_slice()), ("B", blocks.as_slice())],
    )?)
}

fn sink_of(alloc: Global) -> Result<MemorySink, Fail> {
    Ok(MemorySink::new(alloc, 65_536, Vec::new(alloc), 67_108_864)?)
}

/// How the serial run ends, and what it wrote.
fn serially(alloc: Global, count: u32) -> Result<(Status, MemorySink), Fail> {
    let words = words_of(alloc, &["run", "free", "G", "B"])?;
    let mut shelf = chain_of(alloc, count)?;
    let mut sink = sink_of(alloc)?;
    let status = serial(alloc, &words, &mut shelf, &mut sink);
    Ok((status, sink))
}

/// How the run by threads ends, and what it wrote.
fn beside<R: Threads + Wait + Sync>(
    rt: &R,
    alloc: Global,
    count: u32,
) -> Result<(Status, MemorySink), Fail> {
    let words = words_of(alloc, &["replay", "free", "G", "B"])?;
    let mut shelf = chain_of(alloc, count)?;
    let mut sink = sink_of(alloc)?;
    let status = replay(rt, alloc, &words, &mut shelf, &mut sink, &OpenGate);
    Ok((status, sink))
}

/// How many lines a text has.
fn lines(text: &[u8]) -> usize {
    text.iter().filter(|byte| **byte == b'\n').count()
}

#[test]
fn a_shard_is_away_between_the_first_block_and_the_last(rt: HostRuntime) -> Result<(), Fail> {
    let (status, serial_sink) = serially(rt.alloc(), BLOCKS)?;
    let (beside_status, beside_sink) = beside(&rt, rt.alloc(), BLOCKS)?;
    let text = serial_sink.bytes();
    assert!(rt; status == Status::Done && beside_status == Status::Done);
    assert!(rt; text == beside_sink.bytes());
    assert_eq!(rt; lines(text), 100_007);
    assert!(rt;
        text.strip_suffix(b"\ntotal places 0 0 0 0 0\n".as_slice())
            .is_some()
    );
    Ok(())
}

#[test]
fn one_block_more_is_refused(rt: HostRuntime) -> Result<(), Fail> {
    let refused = Status::Blocks { kind: 4, a: 0 };
    let (status, sink) = serially(rt.alloc(), BLOCKS + 1)?;
    assert!(rt; status == refused && sink.bytes().is_empty());
    let (status, sink) = beside(&rt, rt.alloc(), BLOCKS + 1)?;
    assert!(rt; status == refused && sink.bytes().is_empty());
    Ok(())
}
