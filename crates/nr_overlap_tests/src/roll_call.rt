//! The chunks of a roll: each sends its name to all shards, and its report has the names that it took, in order.

ghost use Rattle.std.specs.Prelude.{◌≡◌};
ghost use Rattle.nr_overlap_tests.specs.Roll.{is_in, is_there};

use crate::roll::Roll;
use nr_bytes::List;
use nr_ids::{Height, ShardId};
use nr_overlap::Phases;
use std::alloc::{AllocError, Global};

/// The name of a chunk.
#[derive(Clone, Copy, Debug, PartialEq, Eq)]
pub struct Name {
    pub height: u64,
    pub source: u32,
}

/// A shard between chunks: the height of its last chunk, or 0.
#[derive(Drop)]
pub struct Last {
    pub height: u64,
}

/// A chunk at work, with the names that it took.
#[derive(Drop)]
pub struct Calling {
    pub shard: u32,
    pub height: u64,
    pub took: List<Name>,
}

fn is_in(chunks: &[bool], shard: usize) -> bool
    ensures { result ≡ is_in chunks.now shard }
{
    match chunks.get(shard) {
        Some(there) => *there,
        None => false,
    }
}

fn is_there(roll: &Roll, shard: u32, height: u64) -> bool
    ensures { result ≡ is_there roll.now shard height }
{
    if height == 0 {
        return false;
    }
    match roll.blocks.get((height - 1) as usize) {
        Some(chunks) => is_in(chunks, shard as usize),
        None => false,
    }
}

impl Phases for Roll {
    ghost use Rattle.nr_overlap_tests.specs.Roll.{rules_of};
    ghost use Rattle.nr_overlap_tests.specs.RollLaws.{laws_of};

    ghost is_run = { λ t. Unit {0} };

    ghost rules = { rules_of };

    ghost can_open = { λ t s h w. Unit {0} };

    ghost can_take = { λ t k l. Unit {0} };

    ghost can_seal = { λ t k. Unit {0} };

    ghost laws = { laws_of };

    type World = Last;

    type Working = Calling;

    type Parcel = Name;

    type Report = List<Name>;

    fn shards(&self) -> u32 {
        self.shards
    }

    fn heights(&self) -> u64 {
        self.blocks.len() as u64
    }

    fn present(&self, shard: ShardId, height: Height) -> bool {
        is_there(self, shard.0, height.0)
    }

    fn begin(&self, _alloc: Global, _shard: ShardId) -> Result<Last, AllocError> {
        Ok(Last { height: 0 })
    }

    fn open_chunk(
        &self,
        alloc: Global,
        shard: ShardId,
        height: Height,
        _world: Last,
    ) -> Result<Calling, AllocError> {
        if self.refused == Some((shard.0, height.0)) {
            return Err(AllocError);
        }
        Ok(Calling {
            shard: shard.0,
            height: height.0,
            took: List::of(Vec::new(alloc)),
        })
    }

    fn take_list(
        &self,
        _alloc: Global,
        working: &mut Calling,
        list: Name,
    ) -> Result<(), AllocError> {
        working.took.vec_mut().push(list)?;
        Ok(())
    }

    fn seal_chunk(
        &self,
        alloc: Global,
        working: Calling,
    ) -> Result<(Last, List<Name>, List<Name>), AllocError> {
        let world = Last {
            height: working.height,
        };
        let name = Name {
            height: working.height,
            source: working.shard,
        };
        let lists = vec![in alloc; name; self.shards as usize]?;
        Ok((world, working.took, List::of(lists)))
    }
}
