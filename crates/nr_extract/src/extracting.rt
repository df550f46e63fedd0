//! A chunk with all that it is run again from.

ghost use Rattle.std.specs.Prelude.{◌≡◌, ◌+◌, ◌^◌, ◌<◌, ◌≤◌, [], false, replicate, unwrap_or, IfOk, OnOk};
ghost use Rattle.std.specs.FinMap as map;
ghost use Rattle.std.specs.Option.{option_and_then, option_copied};
ghost use Rattle.nr_chunk.specs.Chain.{chunk_in, rules_of};
ghost use Rattle.nr_chunk.specs.Locality.{touched};
ghost use Rattle.nr_chunk.specs.Runs.{chain_in};
ghost use Rattle.nr_extract.specs.Chunk.{before, gathered_chunk, stated_price};
ghost use Rattle.nr_extract.specs.Shown.{IsShown};
ghost use Rattle.nr_gather.specs.Gathered.{gathered, root_in};
ghost use Rattle.nr_overlap.specs.Positions.{end_at};
ghost use Rattle.nr_overlap.specs.Run.{opening};
ghost use Rattle.nr_overlap.specs.Serial.{world_after};
ghost use Rattle.nr_state.specs.Flat.{flat};
ghost use Rattle.nr_stateless.specs.Accounts.{searched_of};
ghost use Rattle.nr_triedef.specs.Root.{paths, root_of};

use crate::accounts::touched_by;
use crate::reaching::run_up_to;
use crate::receipts::taken_by;
use nr_blocks::Block;
use nr_bytes::{Blob, List};
use nr_chunk::{ChainRun, ChunkStore, ChunkWorld};
use nr_gather::{gather, root_of_gathered};
use nr_gathered::Gathered;
use nr_ids::{Height, ShardId};
use nr_overlap::Core;
use nr_records::{Receipt, Spelled, Transaction};
use nr_state::Caller;
use nr_state::laws::entry_laws;
use nr_stateless::searched_of;
use nr_trielist::Hashes;
use std::alloc::{AllocError, Global};

/// Copies of the transactions that a block has for a shard.
fn transactions_in(
    alloc: Global,
    block: Option<&Block>,
    shard: ShardId,
) -> Result<List<Transaction>, AllocError>
    ensures { IfOk result (λ txs. txs ≡ unwrap_or (option_and_then (chunk_in shard.0) (option_copied block.entry)) []) }
{
    match block {
        Some(block) => match block.chunks.inner().get(shard.0 as usize) {
            Some(Some(list)) => list.duplicate(alloc),
            _ => Ok(List::of(Vec::new(alloc))),
        },
        None => Ok(List::of(Vec::new(alloc))),
    }
}

/// The price that a block states.
fn stated_price(block: Option<&Block>) -> Option<u64>
    ensures { result ≡ stated_price (option_copied block.entry) }
{
    match block {
        Some(block) => block.price,
        None => None,
    }
}

/// How many receipts may ever have been delayed.
const MOST_DELAYED: u64 = 1 << 63;

/// Refuses more receipts than may ever have been delayed.
fn check_few(served: u64, waiting: usize) -> Result<(), AllocError>
    ensures { OnOk result (served + waiting ≤ 2 ^ 63) }
{
    let waiting = waiting as u64;
    if served <= MOST_DELAYED && waiting <= MOST_DELAYED - served {
        Ok(())
    } else {
        Err(AllocError)
    }
}

/// The texts of the trie of a world that a walk looks at for the accounts that a chunk touches.
fn texts_of(
    alloc: Global,
    world: &ChunkWorld,
    transactions: &[Transaction],
    taken: &[Receipt],
    hashes: &mut Hashes,
) -> Result<List<Blob>, AllocError>
    ensures texts { IfOk result (λ texts. texts
        ≡ gathered (searched_of (touched world.now.world transactions.now taken.now))
        (paths (map.entries (flat world.now.world)))) }
    ensures root { IfOk result (λ texts. root_in texts ≡ (root_of (flat world.now.world)).hash) }
    ensures shown { IfOk result (λ _. IsShown world.now.world) }
{
    entry_laws();
    let delayed = world.delayed(alloc)?;
    check_few(world.served()?, delayed.inner().len())?;
    let accounts = touched_by(alloc, transactions, delayed.inner(), taken)?;
    let searched = searched_of(alloc, accounts.inner())?;
    let entries = world.entries()?;
    gather(alloc, &entries, searched.inner(), hashes)
}

/// The chunk of a shard behind a height, where the shard has this world and all shards stand right behind that height.
fn chunk_of<C: Caller<ChunkStore>>(
    alloc: Global,
    core: &Core<ChainRun<C>>,
    world: &ChunkWorld,
    shard: ShardId,
    below: u64,
    hashes: &mut Hashes,
) -> Result<Gathered, AllocError>
    requires whole { core.now.lost ≡ false }
    requires inside { shard.0 < (rules_of (chain_in core.now.phases)).shards }
    requires places { core.now.positions ≡ replicate (rules_of (chain_in core.now.phases)).shards (end_at below) }
    requires within { below < (rules_of (chain_in core.now.phases)).heights }
    requires world { world.now ≡ world_after (rules_of (chain_in core.now.phases)) shard.0 below }
    ensures chunk { IfOk result (λ chunk. chunk ≡ gathered_chunk (chain_in core.now.phases) shard.0 below) }
    ensures shown { IfOk result (λ _. IsShown world.now.world) }
{
    let chain = core.phases();
    let place = chain.place(Height(below + 1));
    let block = chain.block(Height(below + 1));
    let transactions = transactions_in(alloc, block, shard)?;
    let taken = taken_by(alloc, core, world, shard, below)?;
    let texts = texts_of(alloc, world, transactions.inner(), taken.inner(), hashes)?;
    Ok(Gathered {
        prior_root: root_of_gathered(texts.inner()),
        layout: chain.layout().duplicate(alloc)?,
        height: place.height,
        timestamp: place.timestamp,
        price: stated_price(block),
        shard,
        transactions,
        taken,
        texts,
    })
}

/// The chunk of a shard at the height after `below`, where all shards stand right behind `below`: all that it takes,
/// and the texts of the trie before it that it is run again from. Heights count from 1 here, whatever lies below the
/// chain's first block; the chunk has its true height. Where the shard has no chunk there, it is one without
/// transactions. Who gathers many chunks hands the same hashes on, so that a long value that many have is hashed once.
///
/// # Errors
///
/// Where memory runs out. It counts as that where more than 2^63 receipts were ever delayed.
pub fn chunk_behind<C: Caller<ChunkStore>>(
    alloc: Global,
    core: &Core<ChainRun<C>>,
    shard: ShardId,
    below: u64,
    hashes: &mut Hashes,
) -> Result<Gathered, AllocError>
    requires whole { core.now.lost ≡ false }
    requires inside { shard.0 < (rules_of (chain_in core.now.phases)).shards }
    requires places { core.now.positions ≡ replicate (rules_of (chain_in core.now.phases)).shards (end_at below) }
    requires within { below < (rules_of (chain_in core.now.phases)).heights }
    ensures chunk { IfOk result (λ chunk. chunk ≡ gathered_chunk (chain_in core.now.phases) shard.0 below) }
    // The state before it is one that a chunk is run again from.
    ensures shown { IfOk result (λ _. IsShown (before (chain_in core.now.phases) shard.0 below).world) }
{
    match core.world(shard) {
        Some(world) => chunk_of(alloc, core, world, shard, below, hashes),
        None => unreachable!(),
    }
}

/// The chunk of a shard at the height after `below`, as [`chunk_behind`] has it, taken out of a chain before its first
/// chunk.
///
/// # Errors
///
/// As of [`chunk_behind`].
pub fn extract<C: Caller<ChunkStore> + Drop>(
    alloc: Global,
    core: Core<ChainRun<C>>,
    shard: ShardId,
    below: u64,
) -> Result<Gathered, AllocError>
    requires whole { core.lost ≡ false }
    requires first { core.positions ≡ opening (rules_of (chain_in core.phases)) }
    requires inside { shard.0 < (rules_of (chain_in core.phases)).shards }
    requires within { below < (rules_of (chain_in core.phases)).heights }
    ensures chunk { IfOk result (λ chunk. chunk ≡ gathered_chunk (chain_in core.phases) shard.0 below) }
    // The state before it is one that a chunk is run again from.
    ensures shown { IfOk result (λ _. IsShown (before (chain_in core.phases) shard.0 below).world) }
{
    let mut core = core;
    run_up_to(&mut core, Height(below))?;
    let mut hashes = Hashes::new(alloc);
    let chunk = chunk_behind(alloc, &core, shard, below, &mut hashes)?;
    Ok(chunk)
}
