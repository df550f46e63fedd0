//! The chunk itself.

ghost use Rattle.std.specs.Prelude.{◌≡◌, ◌<◌, true, IfOk, is_some};
ghost use Rattle.nr_chunk.specs.Chain.{chunk_at, shards_of};
ghost use Rattle.nr_chunk.specs.Runs.{chain_in};
ghost use Rattle.nr_recheck.specs.Running.{first_sealed};

use nr_chunk::{ChainRun, ChunkStore, ChunkWorld};
use nr_ids::{Height, ShardId};
use nr_overlap::Phases;
use nr_records::ChunkResult;
use nr_state::Caller;
use std::alloc::{AllocError, Global};

/// The first chunk of a shard: its report, and the shard behind it.
///
/// # Errors
///
/// Where memory ran out.
pub(crate) fn run_first<C: Caller<ChunkStore>>(
    alloc: Global,
    chain: &ChainRun<C>,
    shard: ShardId,
) -> Result<(ChunkWorld, ChunkResult), AllocError>
    requires inside { shard.0 < shards_of (chain_in chain.now) }
    requires there { is_some (chunk_at (chain_in chain.now) shard.0 1) ≡ true }
    ensures world { IfOk result (λ done. done.0 ≡ (first_sealed (chain_in chain.now) shard.0).world) }
    ensures report { IfOk result (λ done. done.1 ≡ (first_sealed (chain_in chain.now) shard.0).report) }
{
    let _shards = chain.shards();
    let world = chain.begin(alloc, shard)?;
    let working = chain.open_chunk(alloc, shard, Height(1), world)?;
    let (world, report, _) = chain.seal_chunk(alloc, working)?;
    Ok((world, report))
}
