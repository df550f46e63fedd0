//! The state of a shard behind a chunk.

ghost use Rattle.std.specs.Prelude.{◌≡◌, true, IfOk};
ghost use Rattle.nr_chunk.specs.Chain.{rules_of};
ghost use Rattle.nr_columns.specs.Entries.{pairs_of};
ghost use Rattle.nr_overlap.specs.Run.{opening};
ghost use Rattle.nr_parts.specs.Cutting.{InOrder};
ghost use Rattle.nr_top.specs.Chunks.{has_chunk, state_after};
ghost use Rattle.nr_top.specs.Moments.{IsMoment, chain_of};

use crate::run::Run;
use crate::run_to::run_to;
use nr_bytes::List;
use nr_columns::Entry;
use nr_ids::{Height, ShardId};
use nr_overlap::Phases;
use std::alloc::AllocError;

/// Whether a chain has a chunk of a shard at a height.
pub(crate) fn has_chunk(core: &Run, shard: ShardId, height: Height) -> bool
    ensures { result ≡ has_chunk (chain_of core.now) shard.0 height.0 }
{
    shard.0 < core.phases().shards() && core.phases().present(shard, height)
}

/// The trie entries of a shard's state behind a chunk, for which a chain is run from its opening.
///
/// # Errors
///
/// Where memory runs out.
pub(crate) fn entries_after(
    core: Run,
    shard: ShardId,
    height: Height,
) -> Result<List<Entry>, AllocError>
    requires moment { IsMoment core }
    requires first { core.positions ≡ opening (rules_of (chain_of core)) }
    requires there { has_chunk (chain_of core) shard.0 height.0 ≡ true }
    ensures entries { IfOk result (λ entries. pairs_of entries ≡ state_after (chain_of core) shard.0 height.0) }
    ensures order { IfOk result InOrder }
{
    let mut core = core;
    run_to(&mut core, shard, height)?;
    match core.world(shard) {
        Some(world) => world.entries(),
        None => unreachable!(),
    }
}
