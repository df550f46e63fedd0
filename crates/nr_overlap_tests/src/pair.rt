//! A run of two shards for the tests.

use nr_bytes::List;
use nr_ids::{Height, ShardId};
use nr_overlap::Phases;
use std::alloc::{AllocError, Global};

/// A run of two shards and ten blocks, of which the first has no chunk of shard 1.
pub struct Pair;

/// A chunk.
#[derive(Clone, Copy, Debug, PartialEq, Eq)]
pub struct Chunk {
    pub shard: u32,
    pub height: u64,
}

/// What a chunk sends to a shard.
#[derive(Clone, Copy, Debug, PartialEq, Eq)]
pub struct Sent {
    pub by: Chunk,
    pub dest: u32,
}

impl Phases for Pair {
    ghost use Rattle.nr_overlap_tests.specs.Pair.{rules};
    ghost use Rattle.nr_overlap_tests.specs.PairLaws.{laws};

    ghost is_run = { λ _. Unit {0} };

    ghost rules = { λ _. rules };

    ghost can_open = { λ _ s h w. Unit {0} };

    ghost can_take = { λ _ k l. Unit {0} };

    ghost can_seal = { λ _ k. Unit {0} };

    ghost laws = { λ _ _. laws };

    type World = u64;

    type Working = Chunk;

    type Parcel = Sent;

    type Report = u64;

    fn shards(&self) -> u32 {
        2
    }

    fn heights(&self) -> u64 {
        10
    }

    fn present(&self, shard: ShardId, height: Height) -> bool {
        u64::from(shard.0) < height.0
    }

    fn begin(&self, _alloc: Global, _shard: ShardId) -> Result<u64, AllocError> {
        Ok(0)
    }

    fn open_chunk(
        &self,
        _alloc: Global,
        shard: ShardId,
        height: Height,
        _world: u64,
    ) -> Result<Chunk, AllocError> {
        Ok(Chunk {
            shard: shard.0,
            height: height.0,
        })
    }

    fn take_list(
        &self,
        _alloc: Global,
        _working: &mut Chunk,
        _list: Sent,
    ) -> Result<(), AllocError> {
        Ok(())
    }

    fn seal_chunk(
        &self,
        alloc: Global,
        working: Chunk,
    ) -> Result<(u64, u64, List<Sent>), AllocError> {
        let first = Sent {
            by: working,
            dest: 0,
        };
        let second = Sent {
            by: working,
            dest: 1,
        };
        let lists = vec![in alloc; first, second]?;
        Ok((working.height, working.height, List::of(lists)))
    }
}
