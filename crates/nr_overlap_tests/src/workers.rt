//! Runs by threads: reports, lists left, and shards that work beside each other.

use crate::meeting::Meeting;
use crate::roll::Roll;
use crate::roll_call::Name;
use crate::rolls::{name, roll};
use nr_bytes::List;
use nr_exchange::{Serial, make_exchange};
use nr_ids::{Height, ShardId};
use nr_overlap::Phases;
use nr_workers::{Finished, Gate, Moment, OpenGate, run_shards};
use std::alloc::{AllocError, Global};
use std::sync::Wait;
use std::sync::atomic::{AtomicBool, AtomicU64, Ordering};
use std::test::Fail;
use std::thread::Threads;

/// Runs the shards of a chain. There are some, and at most 100,000 heights.
fn run<R: Threads + Wait + Sync, P: Phases + Sync + Drop, G: Gate + Sync>(
    rt: &R,
    alloc: Global,
    phases: P,
    gate: &G,
) -> Result<Finished<P>, AllocError> {
    if phases.shards() == 0 || phases.heights() > 100_000 {
        return Err(AllocError);
    }
    let run = Serial(phases);
    let (exchange, ports) = make_exchange(alloc, &run)?;
    run_shards(rt, alloc, &run.0, &exchange, ports, gate)
}

/// Whether the reports of a shard's chunks tell these names.
fn took(reports: &[List<List<Name>>], shard: usize, names: &[&[Name]]) -> bool {
    match reports.get(shard) {
        Some(reports) => {
            reports.inner().len() == names.len()
                && reports
                    .inner()
                    .iter()
                    .zip(names)
                    .all(|(one, other)| one.inner() == *other)
        }
        None => false,
    }
}

/// Whether these lists are left, each with its height, source and destination.
fn are_left(left: &[(ShardId, Height, ShardId, Name)], names: &[(u32, u64, u32)]) -> bool {
    left.len() == names.len()
        && left.iter().zip(names).all(|(one, name)| {
            (one.0.0, one.1.0, one.2.0) == *name
                && one.3
                    == Name {
                        height: name.1,
                        source: name.0,
                    }
        })
}

// Threads alone can pass this: each of the first two chunks waits until the other is being opened.
#[test]
fn both_working(rt: HostRuntime) -> Result<(), Fail> {
    let alloc = rt.alloc();
    let blocks: [&[bool]; 3] = [&[true, true], &[true, true], &[true, true]];
    let meeting = Meeting {
        roll: roll(alloc, 2, &blocks, None)?,
        begun: [AtomicBool::new(false), AtomicBool::new(false)],
    };
    let finished = run(&rt, alloc, meeting, &OpenGate)?;
    let reports: [&[Name]; 3] = [&[], &[name(1, 0), name(1, 1)], &[name(2, 0), name(2, 1)]];
    assert!(rt; took(finished.reports.inner(), 0, &reports));
    assert!(rt; took(finished.reports.inner(), 1, &reports));
    assert!(rt;
        are_left(
            finished.left.inner(),
            &[(0, 3, 0), (0, 3, 1), (1, 3, 0), (1, 3, 1)]
        )
    );
    Ok(())
}

// Shard 1 has no chunk at heights 2, 3 and 5.
#[test]
fn lists_wait_for_a_missing_chunk(rt: HostRuntime) -> Result<(), Fail> {
    let alloc = rt.alloc();
    let blocks: [&[bool]; 5] = [
        &[true, true],
        &[true, false],
        &[true, false],
        &[true, true],
        &[true, false],
    ];
    let roll = roll(alloc, 2, &blocks, None)?;
    let finished = run(&rt, alloc, roll, &OpenGate)?;
    let first: [&[Name]; 5] = [
        &[],
        &[name(1, 0), name(1, 1)],
        &[name(2, 0)],
        &[name(3, 0)],
        &[name(4, 0), name(4, 1)],
    ];
    assert!(rt; took(finished.reports.inner(), 0, &first));
    let second: [&[Name]; 2] = [&[], &[name(1, 0), name(1, 1), name(2, 0), name(3, 0)]];
    assert!(rt; took(finished.reports.inner(), 1, &second));
    assert!(rt;
        are_left(
            finished.left.inner(),
            &[(0, 4, 1), (0, 5, 0), (0, 5, 1), (1, 4, 1)]
        )
    );
    Ok(())
}

/// Whether a run in which the opening of this chunk finds no memory ends in want of memory.
fn runs_out<R: Threads + Wait + Sync>(
    rt: &R,
    alloc: Global,
    shard: u32,
    height: u64,
) -> Result<bool, AllocError> {
    let all: [bool; 3] = [true, true, true];
    let roll = roll(alloc, 3, &[&all, &all, &all], Some((shard, height)))?;
    Ok(run(rt, alloc, roll, &OpenGate).is_err())
}

#[test]
fn a_shard_without_memory_ends_all(rt: HostRuntime) -> Result<(), Fail> {
    for shard in 0..3u32 {
        for height in 1..4u64 {
            assert!(rt; runs_out(&rt, rt.alloc(), shard, height)?);
        }
    }
    assert!(rt; !runs_out(&rt, rt.alloc(), 3, 1)?);
    Ok(())
}

/// Notes the moments that it sees, as digits of a number.
#[derive(Drop)]
struct Watch {
    seen: AtomicU64,
}

impl Gate for Watch {
    fn pass(&self, _shard: ShardId, height: Height, moment: Moment) {
        let digit = match moment {
            Moment::BeforeOpen => 1,
            Moment::AfterSeal => 2,
            Moment::AfterPublish => 3,
        };
        let seen = self.seen.load(Ordering::SeqCst);
        let next = seen
            .wrapping_mul(100)
            .wrapping_add(height.0.wrapping_mul(10))
            .wrapping_add(digit);
        self.seen.store(next, Ordering::SeqCst);
    }
}

// The chunk at height 2 is missing.
#[test]
fn a_chunk_passes_its_gate_three_times(rt: HostRuntime) -> Result<(), Fail> {
    let alloc = rt.alloc();
    let roll = roll(alloc, 1, &[&[true], &[false], &[true]], None)?;
    let watch = Watch {
        seen: AtomicU64::new(0),
    };
    let finished = run(&rt, alloc, roll, &watch)?;
    assert_eq!(rt; watch.seen.load(Ordering::SeqCst), 11_12_13_31_32_33);
    assert_eq!(rt; finished.ports.len(), 1);
    assert!(rt; finished.worlds.inner().iter().all(|last| last.height == 3));
    Ok(())
}

/// Thirty blocks, of which shard 1 has a chunk only in the first and the last.
fn thirty(alloc: Global, refused: Option<(u32, u64)>) -> Result<Roll, AllocError> {
    let both: &[bool] = &[true, true];
    let alone: &[bool] = &[true, false];
    let mut blocks: Vec<&[bool]> = Vec::new(alloc);
    blocks.push(both)?;
    for _height in 2..30u64 {
        blocks.push(alone)?;
    }
    blocks.push(both)?;
    roll(alloc, 2, blocks.as_slice(), refused)
}

// Shard 1 takes nothing before its last chunk, so shard 0 comes to a full ring.
#[test]
fn a_shard_waits_for_room(rt: HostRuntime) -> Result<(), Fail> {
    let alloc = rt.alloc();
    let finished = run(&rt, alloc, thirty(alloc, None)?, &OpenGate)?;
    let mut names = Vec::new(alloc);
    names.push(name(1, 0))?;
    names.push(name(1, 1))?;
    for height in 2..30u64 {
        names.push(name(height, 0))?;
    }
    let second: [&[Name]; 2] = [&[], names.as_slice()];
    assert!(rt; took(finished.reports.inner(), 1, &second));
    assert!(rt;
        are_left(
            finished.left.inner(),
            &[(0, 30, 0), (0, 30, 1), (1, 30, 0), (1, 30, 1)]
        )
    );
    Ok(())
}

// Shard 1 gives up at its last chunk, while shard 0 waits for room on the link to it.
#[test]
fn nobody_waits_for_room_of_a_shard_that_gave_up(rt: HostRuntime) -> Result<(), Fail> {
    let alloc = rt.alloc();
    assert!(rt; run(&rt, alloc, thirty(alloc, Some((1, 30)))?, &OpenGate).is_err());
    Ok(())
}
