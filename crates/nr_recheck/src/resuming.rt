//! The chain of one block on which the chunk is run.

ghost use Rattle.std.specs.Prelude.{◌≡◌, ◌++◌, ◌∷◌, [], replicate, IfOk, OnOk, Some, None};
ghost use Rattle.nr_chunk.specs.Runs.{chain_in};
ghost use Rattle.nr_recheck.specs.Running.{CanRun, resumed_chain};

use nr_blocks::Block;
use nr_bytes::List;
use nr_chunk::{ChainRun, ChunkStore, Resumed};
use nr_columns::Entry;
use nr_config::Config;
use nr_gathered::Gathered;
use nr_records::Transaction;
use nr_state::Caller;
use std::alloc::{AllocError, Global};

fn push_empty<T: Drop>(
    alloc: Global,
    lists: &mut Vec<List<T>>,
    count: u32,
) -> Result<(), AllocError>
    ensures { OnOk result (lists.new.items ≡ lists.old.items ++ replicate count []) }
{
    for _ in 0..count {
        lists.push(List::of(Vec::new(alloc)))?;
    }
    Ok(())
}

/// A list between empty ones.
fn between_empty<T: Drop>(
    alloc: Global,
    before: u32,
    one: List<T>,
    after: u32,
) -> Result<List<List<T>>, AllocError>
    ensures { IfOk result (λ lists. lists ≡ replicate before [] ++ one ∷ replicate after []) }
{
    let mut lists = Vec::new(alloc);
    push_empty(alloc, &mut lists, before)?;
    lists.push(one)?;
    push_empty(alloc, &mut lists, after)?;
    Ok(List::of(lists))
}

fn push_missing(chunks: &mut Vec<Option<List<Transaction>>>, count: u32) -> Result<(), AllocError>
    ensures { OnOk result (chunks.new.items ≡ chunks.old.items ++ replicate count None) }
{
    for _ in 0..count {
        chunks.push(None)?;
    }
    Ok(())
}

/// A chunk between missing ones.
fn between_missing(
    alloc: Global,
    before: u32,
    one: List<Transaction>,
    after: u32,
) -> Result<List<Option<List<Transaction>>>, AllocError>
    ensures { IfOk result (λ chunks. chunks ≡ replicate before None ++ Some one ∷ replicate after None) }
{
    let mut chunks = Vec::new(alloc);
    push_missing(&mut chunks, before)?;
    chunks.push(Some(one))?;
    push_missing(&mut chunks, after)?;
    Ok(List::of(chunks))
}

/// The chain of the chunk's block alone, over the world of the entries.
///
/// # Errors
///
/// Where memory ran out.
pub(crate) fn resume<C: Caller<ChunkStore> + Drop>(
    alloc: Global,
    parts: (Config, C),
    gathered: Gathered,
    entries: List<Entry>,
) -> Result<ChainRun<C>, AllocError>
    requires caller { C.config parts.1 ≡ parts.0 }
    requires can { CanRun parts.0 gathered entries }
    ensures { IfOk result (λ chain. chain_in chain ≡ resumed_chain parts.0 (C.meaning parts.1) gathered entries) }
{
    let Gathered {
        layout,
        height,
        timestamp,
        price,
        shard,
        transactions,
        taken,
        ..
    } = gathered;
    let before = shard.0;
    let after = layout.shards() - 1 - before;
    let worlds = between_empty(alloc, before, entries, after)?;
    let carried = between_empty(alloc, before, taken, after)?;
    let chunks = between_missing(alloc, before, transactions, after)?;
    let block = Block {
        height,
        timestamp,
        price,
        chunks,
    };
    let blocks = List::of(vec![in alloc; block]?);
    let resumed = Resumed {
        layout,
        below: height.0 - 1,
        worlds,
        carried,
    };
    Ok(ChainRun::resume(parts, resumed, blocks))
}
