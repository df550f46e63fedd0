//! The receipts that a chunk takes.

ghost use Rattle.std.specs.Prelude.{◌≡◌, ◌≤◌, ◌<◌, ◌++◌, Some, false, replicate, IfOk, OnOk};
ghost use Rattle.std.specs.List.{flat_map};
ghost use Rattle.nr_chunk.specs.Chain.{rules_of};
ghost use Rattle.nr_chunk.specs.Runs.{chain_in};
ghost use Rattle.nr_overlap.specs.Positions.{end_at};
ghost use Rattle.nr_overlap.specs.Serial.{due_after, first_due, world_after};
ghost use Rattle.nr_extract.specs.Chunk.{due_to, due_lists, taken};

use nr_bytes::List;
use nr_chunk::{ChainRun, ChunkStore, ChunkWorld};
use nr_ids::{Height, ShardId};
use nr_overlap::{Core, due_list};
use nr_records::{Receipt, Spelled};
use nr_state::Caller;
use std::alloc::{AllocError, Global};

/// Appends copies of the receipts of a list.
fn add_receipts(alloc: Global, taken: &mut Vec<Receipt>, list: &[Receipt]) -> Result<(), AllocError>
    ensures { OnOk result (taken.new.items ≡ taken.old.items ++ list.now) }
{
    for receipt in list {
        taken.push(receipt.duplicate(alloc)?)?;
    }
    Ok(())
}

/// Appends copies of the receipts of a list that is due to the chunk behind a height, where all shards stand right
/// behind that height.
fn add_due<C: Caller<ChunkStore>>(
    alloc: Global,
    core: &Core<ChainRun<C>>,
    shard: ShardId,
    below: u64,
    due: (u64, u32),
    taken: &mut Vec<Receipt>,
) -> Result<(), AllocError>
    requires whole { core.now.lost ≡ false }
    requires inside { shard.0 < (rules_of (chain_in core.now.phases)).shards }
    requires places { core.now.positions ≡ replicate (rules_of (chain_in core.now.phases)).shards (end_at below) }
    requires from { first_due (rules_of (chain_in core.now.phases)) shard.0 below ≤ due.0 }
    requires to { due.0 ≤ below }
    requires source { due.1 < (rules_of (chain_in core.now.phases)).shards }
    ensures { OnOk result (taken.new.items ≡ taken.old.items ++ due_to (chain_in core.now.phases) shard.0 due) }
{
    match core.flight(ShardId(due.1), Height(due.0), shard) {
        Some(list) => add_receipts(alloc, taken, list.inner()),
        None => Ok(()),
    }
}

/// Appends copies of the receipts of these lists, which are all that are due to the chunk behind a height.
fn add_each_due<C: Caller<ChunkStore>>(
    alloc: Global,
    core: &Core<ChainRun<C>>,
    shard: ShardId,
    below: u64,
    dues: &[(u64, u32)],
    taken: &mut Vec<Receipt>,
) -> Result<(), AllocError>
    requires whole { core.now.lost ≡ false }
    requires inside { shard.0 < (rules_of (chain_in core.now.phases)).shards }
    requires places { core.now.positions ≡ replicate (rules_of (chain_in core.now.phases)).shards (end_at below) }
    requires dues { dues.now ≡ due_after (rules_of (chain_in core.now.phases)) shard.0 below }
    ensures { OnOk result (taken.new.items ≡ taken.old.items ++ flat_map (due_to (chain_in core.now.phases) shard.0)
        dues.now) }
{
    for due in dues {
        add_due(alloc, core, shard, below, *due, taken)?;
    }
    Ok(())
}

/// Appends copies of the receipts of all lists that are due to the chunk behind a height.
fn add_all_due<C: Caller<ChunkStore>>(
    alloc: Global,
    core: &Core<ChainRun<C>>,
    shard: ShardId,
    below: u64,
    taken: &mut Vec<Receipt>,
) -> Result<(), AllocError>
    requires whole { core.now.lost ≡ false }
    requires inside { shard.0 < (rules_of (chain_in core.now.phases)).shards }
    requires places { core.now.positions ≡ replicate (rules_of (chain_in core.now.phases)).shards (end_at below) }
    requires within { below < (rules_of (chain_in core.now.phases)).heights }
    ensures { OnOk result (taken.new.items ≡ taken.old.items ++ due_lists (chain_in core.now.phases) shard.0 below) }
{
    let dues = due_list(alloc, core.phases(), shard, below)?;
    add_each_due(alloc, core, shard, below, &dues, taken)
}

/// Copies of the receipts that the chunk of a shard behind a height takes, those that are carried to it first. The
/// shard has this world, and all shards stand right behind that height.
pub(crate) fn taken_by<C: Caller<ChunkStore>>(
    alloc: Global,
    core: &Core<ChainRun<C>>,
    world: &ChunkWorld,
    shard: ShardId,
    below: u64,
) -> Result<List<Receipt>, AllocError>
    requires whole { core.now.lost ≡ false }
    requires inside { shard.0 < (rules_of (chain_in core.now.phases)).shards }
    requires places { core.now.positions ≡ replicate (rules_of (chain_in core.now.phases)).shards (end_at below) }
    requires within { below < (rules_of (chain_in core.now.phases)).heights }
    requires world { world.now ≡ world_after (rules_of (chain_in core.now.phases)) shard.0 below }
    ensures { IfOk result (λ list. list ≡ taken (chain_in core.now.phases) shard.0 below) }
{
    let mut taken = Vec::new(alloc);
    add_receipts(alloc, &mut taken, world.carried().inner())?;
    add_all_due(alloc, core, shard, below, &mut taken)?;
    Ok(List::of(taken))
}
