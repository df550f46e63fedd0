//! A chain whose chunks are worked on: what it holds, and what is known of it.

ghost use Rattle.std.specs.Prelude.{◌≡◌, ◌+◌, ◌^◌, ◌<◌, length};
ghost use Rattle.std.specs.List.{AllByRecursion};
ghost use Rattle.nr_blocks.specs.BlocksFiles.{FitsPrice};
ghost use Rattle.nr_blocks.specs.Genesis.{IsSoundGenesis};
ghost use Rattle.nr_chunk.specs.Prices.{prices_prop};
ghost use Rattle.nr_chunk.specs.Start.{genesis_start};
ghost use Rattle.nr_chunk.specs.Starts.{IsSoundStart, start_of};
ghost use Rattle.nr_chunk.specs.declared.start.FirstState.TheVariants as first;

use crate::start::{Grounds, Resumed};
use crate::state::ChunkStore;
use nr_blocks::{Block, Genesis};
use nr_bytes::List;
use nr_config::Config;
use nr_config::entries::GAS_PRICE;
use nr_join::laws::joining_laws;
use nr_layout::Layout;
use nr_receipt::laws::execution_laws;
use nr_state::Caller;
use nr_txconvert::laws::conversion_laws;

/// A chain whose chunks are worked on: its configuration, its start and its blocks, and who runs its contracts.
#[derive(Drop)]
pub struct ChainRun<C: Caller<ChunkStore>> {
    pub(crate) config: Config,
    pub(crate) grounds: Grounds,
    pub(crate) blocks: List<Block>,
    pub(crate) caller: C,
    ghost own: { grounds.config ≡ config },
    ghost fits: { grounds.start.below + length blocks < 2 ^ 64 },
    ghost prices: { AllByRecursion FitsPrice blocks } by { prices_prop blocks },
    ghost same: { C.config caller ≡ config },
}

/// A number of the program has 64 bits.
fn know_number(number: u64)
    ensures { number < 2 ^ 64 }
{
    let _ = number;
}

/// The price of a block fits in its number.
fn know_price(block: &Block)
    ensures { FitsPrice block.now }
{
    if let Some(price) = block.price {
        know_number(price);
    }
}

/// So do those of all blocks. It changes nothing.
fn know_prices(blocks: &[Block])
    ensures { AllByRecursion FitsPrice blocks.now }
{
    for block in blocks {
        know_price(block);
    }
}

impl<C: Caller<ChunkStore>> ChainRun<C> {
    ghost use Rattle.nr_chunk.specs.Chain.{IsChain};
    ghost use Rattle.nr_chunk.specs.Runs.{chain_in};
    ghost use Rattle.nr_chunk.specs.Serving.{Pays, Promise};

    /// What is known of a chain. It does nothing when it runs.
    pub(crate) fn known(&self)
        ensures { IsChain (chain_in self.now) }
    {
        let _ = self.grounds.config().entry(GAS_PRICE);
        let _ = self.grounds.layout().shards();
    }

    /// What executing, settling, offering and delaying keep in a chain. It does nothing when it runs.
    pub(crate) fn promise(&self)
        ensures { Promise self.now.config (C.meaning self.now.caller) }
    {
        self.known();
        joining_laws();
        execution_laws();
    }

    /// What converting keeps in a chain. It does nothing when it runs.
    pub(crate) fn pays(&self)
        ensures { Pays self.now.config }
    {
        conversion_laws();
    }

    /// A chain.
    pub fn new(config: Config, genesis: Genesis, blocks: List<Block>, caller: C) -> ChainRun<C>
        requires sound { IsSoundGenesis config genesis }
        requires caller { C.config caller ≡ config }
        ensures config { result.config ≡ config }
        ensures start { result.grounds.start ≡ genesis_start genesis }
        ensures blocks { result.blocks ≡ blocks }
        ensures caller { result.caller ≡ caller }
    {
        let _count = blocks.inner().len();
        know_prices(blocks.inner());
        ChainRun {
            config,
            grounds: Grounds::founded(config, genesis),
            blocks,
            caller,
        }
    }

    /// The boundaries between the shards.
    pub fn layout(&self) -> &Layout
        ensures { result.now ≡ self.now.grounds.start.boundaries }
    {
        self.grounds.layout()
    }

    /// The configuration, and who runs the contracts.
    pub fn into_parts(self) -> (Config, C)
        ensures config { result.0 ≡ self.config }
        ensures caller { result.1 ≡ self.caller }
        ensures same { C.config result.1 ≡ result.0 }
    {
        let ChainRun {
            config,
            grounds: _,
            blocks: _,
            caller,
        } = self;
        (config, caller)
    }

    /// A chain that goes on from the worlds of its shards, given by their trie entries. `resumed` says how many heights
    /// lie below its first block; for the phases its heights count from 1. What is carried to a shard is taken by its
    /// first chunk, at the end of its opening.
    pub fn resume(parts: (Config, C), resumed: Resumed, blocks: List<Block>) -> ChainRun<C>
        requires caller { C.config parts.1 ≡ parts.0 }
        requires sound { IsSoundStart parts.0 (first.Resumed resumed) }
        requires fits { resumed.below + length blocks < 2 ^ 64 }
        ensures config { result.config ≡ parts.0 }
        ensures start { result.grounds.start ≡ start_of (first.Resumed resumed) }
        ensures blocks { result.blocks ≡ blocks }
        ensures caller { result.caller ≡ parts.1 }
    {
        know_prices(blocks.inner());
        let (config, caller) = parts;
        ChainRun {
            config,
            grounds: Grounds::resumed(config, resumed),
            blocks,
            caller,
        }
    }
}
