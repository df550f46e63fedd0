//! The tree of a chunk's items.

use nr_bytes::List;
use nr_ids::{Hash32, Height, ShardId};
use nr_outproof::{ProofKind, chunk_root, prove};
use nr_records::{ChunkLine, ChunkResult};
use std::alloc::{AllocError, Global};

/// What is made in each turn.
#[derive(Clone, Copy)]
enum Making {
    /// the root of all items
    Root,
    /// the proof of the item in the middle
    Proof,
}

/// A tree, and how often it is made.
#[derive(Clone, Copy)]
pub struct Task {
    making: Making,
    items: u32,
    pub turns: u32,
}

/// The task that the words ask for.
pub fn task_of(words: &[String]) -> Option<Task> {
    let [word, making, items, turns] = words else {
        return None;
    };
    if word.as_str() != "tree" {
        return None;
    }
    let making = match making.as_str() {
        "root" => Making::Root,
        "proof" => Making::Proof,
        _ => return None,
    };
    let items = items.parse::<u32>().ok()?;
    let turns = turns.parse::<u32>().ok()?;
    Some(Task {
        making,
        items,
        turns,
    })
}

/// A hash that tells a number.
fn hash_of(number: u32) -> Hash32 {
    let mut bytes = [0; 32];
    bytes[..4].copy_from_slice(&number.to_le_bytes());
    Hash32(bytes)
}

/// A chunk that sent so many receipts.
fn chunk_of(alloc: Global, items: u32) -> Result<ChunkResult, AllocError> {
    let mut lines = Vec::new(alloc);
    for number in 0..items {
        lines.push(ChunkLine::Sent {
            dest: ShardId(0),
            receipt_id: hash_of(number),
            hash: hash_of(number),
        })?;
    }
    Ok(ChunkResult {
        height: Height(1),
        shard: ShardId(0),
        root: hash_of(0),
        gas: 0,
        burnt: 0,
        local: 0,
        lines: List::of(lines),
    })
}

fn make(alloc: Global, task: Task, chunk: &ChunkResult) -> Result<(), AllocError> {
    match task.making {
        Making::Root => {
            let _ = chunk_root(alloc, chunk, ProofKind::Receipt)?;
        }
        Making::Proof => {
            let _ = prove(alloc, chunk, ProofKind::Receipt, u64::from(task.items / 2))?;
        }
    }
    Ok(())
}

/// Makes what the task asks for, in each of its turns.
///
/// # Errors
///
/// Where memory ran out.
pub fn run(alloc: Global, task: Task) -> Result<(), AllocError> {
    let chunk = chunk_of(alloc, task.items)?;
    for _turn in 0..task.turns {
        make(alloc, task, &chunk)?;
    }
    Ok(())
}
