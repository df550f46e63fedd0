//! The run of all shards until a chunk is sealed.

ghost use Rattle.std.specs.Prelude.{◌≡◌, Some, false, OnOk};
ghost use Rattle.nr_overlap.specs.Moment.{world_at};
ghost use Rattle.nr_overlap.specs.Positions.{at};
ghost use Rattle.nr_overlap.specs.Run.{opening};
ghost use Rattle.nr_overlap.specs.Serial.{world_after};
ghost use Rattle.nr_top.specs.Arriving.{IsChunk, IsNextBefore};

use nr_ids::{Height, ShardId};
use nr_overlap::{Core, Event, Phases, step_all};
use std::alloc::AllocError;

/// The next event of a run, until a chunk is sealed.
fn event_before<P: Phases>(core: &Core<P>, shard: ShardId, height: Height) -> Option<Event>
    requires chunk { IsChunk (P.rules core.now.phases) shard.0 height.0 }
    requires whole { core.now.lost ≡ false }
    ensures { IsNextBefore (P.rules core.now.phases) shard.0 height.0 core.now.positions result }
{
    match core.report(shard, height) {
        Some(_) => None,
        None => core.next_event(),
    }
}

/// Runs all shards from their opening, block after block, until a chunk is sealed.
///
/// # Errors
///
/// Where memory runs out.
pub(crate) fn run_to<P: Phases>(
    core: &mut Core<P>,
    shard: ShardId,
    height: Height,
) -> Result<(), AllocError>
    requires chunk { IsChunk (P.rules core.old.phases) shard.0 height.0 }
    requires whole { core.old.lost ≡ false }
    requires first { core.old.positions ≡ opening (P.rules core.old.phases) }
    ensures phases { OnOk result (core.new.phases ≡ core.old.phases) }
    ensures whole { OnOk result (core.new.lost ≡ false) }
    // The world that the shard then has is the one that the serial run has behind the height.
    ensures world { OnOk result (let r = P.rules core.old.phases in
        world_at r shard.0 (at core.new.positions shard.0) ≡ Some (world_after r shard.0 height.0)) }
{
    while let Some(event) = event_before(core, shard, height) {
        step_all(core, &[event])?;
    }
    Ok(())
}
