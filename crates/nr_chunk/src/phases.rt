//! The phases of a chain's chunks.

ghost use Rattle.std.specs.Prelude.{◌≡◌, ◌+◌, ◌<◌, ◌≤◌, true, length};
ghost use Rattle.std.specs.Option.{option_copied};
ghost use Rattle.nr_chunk.specs.Chain.{Chain, block_at, chunk_in, chunk_at, time_of, price_in, place_at};
ghost use Rattle.nr_chunk.specs.Runs.{chain_in};

use crate::chain::ChainRun;
use crate::chunk_work::ChunkWork;
use crate::chunk_world::ChunkWorld;
use crate::opening::open;
use crate::sealing::seal;
use crate::serving::serve_all;
use crate::state::ChunkStore;
use nr_blocks::Block;
use nr_bytes::List;
use nr_config::entries::GAS_PRICE;
use nr_ids::{Height, ShardId};
use nr_overlap::Phases;
use nr_records::{ChunkResult, Receipt, Transaction};
use nr_state::{Caller, Place};
use std::alloc::{AllocError, Global};

fn block_at(blocks: &[Block], height: Height) -> Option<&Block>
    ensures { (x : Chain) → blocks.now ≡ x.blocks → option_copied result ≡ block_at x height.0 }
{
    match height.0 {
        0 => None,
        number => blocks.get((number - 1) as usize),
    }
}

fn chunk_in(block: &Block, shard: ShardId) -> Option<&[Transaction]>
    ensures { option_copied result ≡ chunk_in shard.0 block.now }
{
    match block.chunks.inner().get(shard.0 as usize) {
        Some(Some(list)) => Some(list.inner()),
        _ => None,
    }
}

/// The transactions of a chunk, where it is there.
fn chunk_at(blocks: &[Block], shard: ShardId, height: Height) -> Option<&[Transaction]>
    ensures { (x : Chain) → blocks.now ≡ x.blocks → option_copied result ≡ chunk_at x shard.0 height.0 }
{
    match block_at(blocks, height) {
        Some(block) => chunk_in(block, shard),
        None => None,
    }
}

fn timestamp(blocks: &[Block], height: Height) -> u64
    ensures { (x : Chain) → blocks.now ≡ x.blocks → result ≡ time_of (block_at x height.0) }
{
    match block_at(blocks, height) {
        Some(block) => block.timestamp,
        None => 0,
    }
}

/// What a unit of gas costs: the price of the block, where it has one, and else the usual one.
fn price(blocks: &[Block], height: Height, usual: u64) -> u64
    ensures { (x : Chain) → blocks.now ≡ x.blocks → result ≡ price_in usual (block_at x height.0) }
{
    match block_at(blocks, height) {
        Some(block) => block.price.unwrap_or(usual),
        None => usual,
    }
}

fn place_at<C: Caller<ChunkStore>>(chain: &ChainRun<C>, height: Height) -> Place
    requires { height.0 ≤ length chain.now.blocks }
    ensures { result ≡ place_at (chain_in chain.now) height.0 }
{
    let blocks = chain.blocks.inner();
    let below = chain.grounds.below();
    Place {
        height: Height(below + height.0),
        timestamp: timestamp(blocks, height),
        price: price(blocks, height, chain.config.entry(GAS_PRICE)),
    }
}

impl<C: Caller<ChunkStore>> ChainRun<C> {
    /// The block of a height.
    pub fn block(&self, height: Height) -> Option<&Block>
        ensures { option_copied result ≡ block_at (chain_in self.now) height.0 }
    {
        block_at(self.blocks.inner(), height)
    }

    /// Where the chunks of a height stand.
    pub fn place(&self, height: Height) -> Place
        requires { height.0 ≤ length self.now.blocks }
        ensures { result ≡ place_at (chain_in self.now) height.0 }
    {
        place_at(self, height)
    }
}

impl<C: Caller<ChunkStore>> Phases for ChainRun<C> {
    ghost use Rattle.nr_chunk.specs.Chain.{rules_of, IsChain, CanOpen, CanTake, CanSeal};
    ghost use Rattle.nr_chunk.specs.Lawful.{laws_of};
    ghost use Rattle.nr_chunk.specs.Runs.{chain_in};

    ghost is_run = { λ x. IsChain (chain_in x) };

    ghost rules = { λ x. rules_of (chain_in x) };

    ghost can_open = { λ x. CanOpen (chain_in x) };

    ghost can_take = { λ x. CanTake (chain_in x) };

    ghost can_seal = { λ x. CanSeal (chain_in x) };

    ghost laws = { λ x is. laws_of (chain_in x) is };

    type World = ChunkWorld;

    type Working = ChunkWork;

    type Parcel = List<Receipt>;

    type Report = ChunkResult;

    fn shards(&self) -> u32 {
        self.known();
        self.grounds.layout().shards()
    }

    fn heights(&self) -> u64 {
        self.blocks.inner().len() as u64
    }

    fn present(&self, shard: ShardId, height: Height) -> bool {
        chunk_at(self.blocks.inner(), shard, height).is_some()
    }

    fn begin(&self, alloc: Global, shard: ShardId) -> Result<ChunkWorld, AllocError> {
        let (state, carried) = self.grounds.begin(alloc, shard)?;
        Ok(ChunkWorld { state, carried })
    }

    fn open_chunk(
        &self,
        alloc: Global,
        shard: ShardId,
        height: Height,
        world: ChunkWorld,
    ) -> Result<ChunkWork, AllocError> {
        let place = place_at(self, height);
        self.known();
        let txs = chunk_at(self.blocks.inner(), shard, height).unwrap_or(&[]);
        let mut work = open(alloc, self, world.state, shard, place, txs)?;
        serve_all(alloc, &mut work, self, world.carried)?;
        Ok(ChunkWork { work, whole: true })
    }

    fn take_list(
        &self,
        alloc: Global,
        working: &mut ChunkWork,
        list: List<Receipt>,
    ) -> Result<(), AllocError> {
        working.whole = false;
        serve_all(alloc, &mut working.work, self, list)?;
        working.whole = true;
        Ok(())
    }

    fn seal_chunk(
        &self,
        alloc: Global,
        working: ChunkWork,
    ) -> Result<(ChunkWorld, ChunkResult, List<List<Receipt>>), AllocError> {
        let sealed = seal(alloc, self.grounds.layout(), working.work)?;
        let world = ChunkWorld {
            state: sealed.state,
            carried: List::of(Vec::new(alloc)),
        };
        Ok((world, sealed.result, sealed.lists))
    }
}
