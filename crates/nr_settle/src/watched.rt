//! A chain whose reports are shown while its shards run.

use nr_bytes::List;
use nr_chunk::{ChainRun, ChunkStore, ChunkWork, ChunkWorld};
use nr_ids::{Height, ShardId};
use nr_overlap::Phases;
use nr_records::{ChunkResult, Receipt};
use nr_state::Caller;
use std::alloc::{AllocError, Global};

/// Who is shown the report of each chunk. It changes nothing of what the run gives.
pub trait Watch {
    /// Takes notice of a report. The thread that runs the chunk's shard calls this when the chunk is sealed and its
    /// lists aren't published yet.
    fn see(&self, alloc: Global, report: &ChunkResult);
}

/// Nobody is shown anything.
#[derive(Clone, Copy, Debug)]
pub struct Unwatched;

impl Watch for Unwatched {
    fn see(&self, _alloc: Global, _report: &ChunkResult) {}
}

/// A chain, and who is shown its reports. Its run is that of the chain.
#[derive(Drop)]
pub struct Watched<C: Caller<ChunkStore>, W: Watch> {
    pub chain: ChainRun<C>,
    pub watch: W,
}

impl<C: Caller<ChunkStore>, W: Watch> Phases for Watched<C, W> {
    ghost use Rattle.nr_chunk.specs.Chain.{rules_of, IsChain, CanOpen, CanTake, CanSeal};
    ghost use Rattle.nr_chunk.specs.Runs.{chain_in};
    ghost use Rattle.nr_chunk.specs.Lawful.{laws_of};

    ghost is_run = { λ x. IsChain (chain_in x.chain) };

    ghost rules = { λ x. rules_of (chain_in x.chain) };

    ghost can_open = { λ x. CanOpen (chain_in x.chain) };

    ghost can_take = { λ x. CanTake (chain_in x.chain) };

    ghost can_seal = { λ x. CanSeal (chain_in x.chain) };

    ghost laws = { λ x is. laws_of (chain_in x.chain) is };

    type World = ChunkWorld;

    type Working = ChunkWork;

    type Parcel = List<Receipt>;

    type Report = ChunkResult;

    fn shards(&self) -> u32 {
        self.chain.shards()
    }

    fn heights(&self) -> u64 {
        self.chain.heights()
    }

    fn present(&self, shard: ShardId, height: Height) -> bool {
        self.chain.present(shard, height)
    }

    fn begin(&self, alloc: Global, shard: ShardId) -> Result<ChunkWorld, AllocError> {
        self.chain.begin(alloc, shard)
    }

    fn open_chunk(
        &self,
        alloc: Global,
        shard: ShardId,
        height: Height,
        world: ChunkWorld,
    ) -> Result<ChunkWork, AllocError> {
        self.chain.open_chunk(alloc, shard, height, world)
    }

    fn take_list(
        &self,
        alloc: Global,
        working: &mut ChunkWork,
        list: List<Receipt>,
    ) -> Result<(), AllocError> {
        self.chain.take_list(alloc, working, list)
    }

    fn seal_chunk(
        &self,
        alloc: Global,
        working: ChunkWork,
    ) -> Result<(ChunkWorld, ChunkResult, List<List<Receipt>>), AllocError> {
        let (world, report, lists) = self.chain.seal_chunk(alloc, working)?;
        self.watch.see(alloc, &report);
        Ok((world, report, lists))
    }
}
