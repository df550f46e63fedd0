//! A roll of two shards whose first chunks wait for each other.

use crate::roll::Roll;
use crate::roll_call::{Calling, Last, Name};
use nr_bytes::List;
use nr_ids::{Height, ShardId};
use nr_overlap::Phases;
use std::alloc::{AllocError, Global};
use std::sync::atomic::{AtomicBool, Ordering};
use std::thread;

/// How often a chunk looks for the other before it gives up.
const TURNS: u64 = 100_000_000;

/// A roll of two shards, with what each tells the other.
#[derive(Drop)]
pub struct Meeting {
    pub roll: Roll,
    /// Whether the chunk of each shard at height 1 is being opened.
    pub begun: [AtomicBool; 2],
}

/// Tells the other shard, and waits for it. The answer is whether it came.
fn meet(begun: &[AtomicBool; 2], shard: u32) -> bool {
    let (mine, other) = if shard == 0 { (0, 1) } else { (1, 0) };
    begun[mine].store(true, Ordering::SeqCst);
    for _ in 0..TURNS {
        if begun[other].load(Ordering::SeqCst) {
            return true;
        }
        thread::yield_now();
    }
    false
}

impl Phases for Meeting {
    ghost use Rattle.nr_overlap_tests.specs.Roll.{rules_of};
    ghost use Rattle.nr_overlap_tests.specs.RollLaws.{laws_of};

    ghost is_run = { λ t. Unit {0} };

    ghost rules = { λ t. rules_of t.roll };

    ghost can_open = { λ t s h w. Unit {0} };

    ghost can_take = { λ t k l. Unit {0} };

    ghost can_seal = { λ t k. Unit {0} };

    ghost laws = { λ t. laws_of t.roll };

    type World = Last;

    type Working = Calling;

    type Parcel = Name;

    type Report = List<Name>;

    fn shards(&self) -> u32 {
        self.roll.shards()
    }

    fn heights(&self) -> u64 {
        self.roll.heights()
    }

    fn present(&self, shard: ShardId, height: Height) -> bool {
        self.roll.present(shard, height)
    }

    fn begin(&self, alloc: Global, shard: ShardId) -> Result<Last, AllocError> {
        self.roll.begin(alloc, shard)
    }

    fn open_chunk(
        &self,
        alloc: Global,
        shard: ShardId,
        height: Height,
        world: Last,
    ) -> Result<Calling, AllocError> {
        if height.0 == 1 && !meet(&self.begun, shard.0) {
            return Err(AllocError);
        }
        self.roll.open_chunk(alloc, shard, height, world)
    }

    fn take_list(
        &self,
        alloc: Global,
        working: &mut Calling,
        list: Name,
    ) -> Result<(), AllocError> {
        self.roll.take_list(alloc, working, list)
    }

    fn seal_chunk(
        &self,
        alloc: Global,
        working: Calling,
    ) -> Result<(Last, List<Name>, List<Name>), AllocError> {
        self.roll.seal_chunk(alloc, working)
    }
}
