//! Chunks of shard 3 at height 7.

use nr_bytes::{Blob, List};
use nr_ids::{Hash32, Height, ShardId};
use nr_records::{ChunkLine, ChunkResult, Outcome, RunStatus};
use std::alloc::{AllocError, Global};

fn hash(byte: u8) -> Hash32 {
    Hash32([byte; 32])
}

fn chunk_of(lines: Vec<ChunkLine>) -> ChunkResult {
    ChunkResult {
        height: Height(7),
        shard: ShardId(3),
        root: hash(0),
        gas: 0,
        burnt: 0,
        local: 0,
        lines: List::of(lines),
    }
}

/// One with this many lines, of receipts that came late.
pub(crate) fn late(alloc: Global, count: u8) -> Result<ChunkResult, AllocError> {
    let mut lines = Vec::new(alloc);
    for byte in 0..count {
        lines.push(ChunkLine::Late(hash(byte)))?;
    }
    Ok(chunk_of(lines))
}

fn sent(dest: u32, id: u8, hash_byte: u8) -> ChunkLine {
    ChunkLine::Sent {
        dest: ShardId(dest),
        receipt_id: hash(id),
        hash: hash(hash_byte),
    }
}

fn run(id: u8, status: RunStatus, gas: u64, burnt: u128, logs: Vec<Blob>) -> ChunkLine {
    ChunkLine::Run(Outcome {
        receipt_id: hash(id),
        status,
        gas,
        burnt,
        logs: List::of(logs),
    })
}

fn blob(alloc: Global, bytes: &[u8]) -> Result<Blob, AllocError> {
    Ok(Blob::of(Vec::from_slice(alloc, bytes)?))
}

/// Transactions, and a receipt that left.
fn add_transactions(lines: &mut Vec<ChunkLine>) -> Result<(), AllocError> {
    lines.push(ChunkLine::TxOk {
        hash: hash(1),
        receipt_id: hash(2),
    })?;
    lines.push(ChunkLine::TxRefused {
        hash: hash(3),
        number: 9,
        first: 100,
        second: u128::MAX,
    })?;
    lines.push(sent(5, 4, 5))?;
    Ok(())
}

/// A receipt that gave bytes and logged twice.
fn logging(alloc: Global) -> Result<ChunkLine, AllocError> {
    let value = blob(alloc, b"\0\xff")?;
    let mut logs = Vec::new(alloc);
    logs.push(blob(alloc, b"hi")?)?;
    logs.push(blob(alloc, b"")?)?;
    Ok(run(6, RunStatus::Value(value), u64::MAX, 34, logs))
}

fn failing(alloc: Global) -> Result<ChunkLine, AllocError> {
    let mut logs = Vec::new(alloc);
    logs.push(blob(alloc, b"lost")?)?;
    let status = RunStatus::Failure {
        index: 1,
        kind: 13,
        part: 5,
    };
    Ok(run(9, status, 12, 0, logs))
}

/// Receipts that ended in each way.
fn add_runs(alloc: Global, lines: &mut Vec<ChunkLine>) -> Result<(), AllocError> {
    lines.push(logging(alloc)?)?;
    let promise = RunStatus::Promise(hash(8));
    lines.push(run(7, promise, 12, 1 << 127, Vec::new(alloc)))?;
    lines.push(failing(alloc)?)?;
    lines.push(run(10, RunStatus::Clash, 0, 3, Vec::new(alloc)))?;
    Ok(())
}

/// The lines of an id alone, and two receipts that left around one that gave no bytes.
fn add_rest(alloc: Global, lines: &mut Vec<ChunkLine>) -> Result<(), AllocError> {
    lines.push(ChunkLine::Postponed(hash(11)))?;
    lines.push(ChunkLine::Received(hash(12)))?;
    lines.push(ChunkLine::Lost(hash(13)))?;
    lines.push(ChunkLine::Late(hash(14)))?;
    lines.push(sent(u32::MAX, 15, 16))?;
    let nothing = RunStatus::Value(Blob::of(Vec::new(alloc)));
    lines.push(run(17, nothing, 0, 0, Vec::new(alloc)))?;
    lines.push(sent(0, 18, 19))?;
    Ok(())
}

/// One with every kind of line and of ending: 11 outcomes and 3 receipts that left.
pub(crate) fn mixed(alloc: Global) -> Result<ChunkResult, AllocError> {
    let mut lines = Vec::new(alloc);
    add_transactions(&mut lines)?;
    add_runs(alloc, &mut lines)?;
    add_rest(alloc, &mut lines)?;
    Ok(chunk_of(lines))
}
