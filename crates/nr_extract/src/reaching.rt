//! The run of all shards to a height.

ghost use Rattle.std.specs.Prelude.{◌≡◌, ◌≤◌, ◌<◌, true, false, replicate, OnOk};
ghost use Rattle.nr_overlap.specs.Positions.{end_at};
ghost use Rattle.nr_extract.specs.Reaching.{AreBehind, HavePublished, IsNextUpTo, LagsOne};

use nr_ids::{Height, ShardId};
use nr_overlap::{Core, Event, Phases, step_all};
use std::alloc::AllocError;

/// Whether all shards have published a height.
fn have_published<P: Phases>(core: &Core<P>, height: Height) -> bool
    ensures all { result ≡ true → HavePublished (P.rules core.now.phases).shards height.0 core.now.positions }
    ensures lags { result ≡ false → LagsOne (P.rules core.now.phases).shards height.0 core.now.positions }
{
    for shard in 0..core.phases().shards() {
        if core.position(ShardId(shard)).number < height.0 {
            return false;
        }
    }
    true
}

/// The next event of a run, until all shards have published a height.
fn event_up_to<P: Phases>(core: &Core<P>, height: Height) -> Option<Event>
    requires within { height.0 ≤ (P.rules core.now.phases).heights }
    requires whole { core.now.lost ≡ false }
    ensures { IsNextUpTo (P.rules core.now.phases) height.0 core.now.positions result }
{
    if have_published(core, height) {
        return None;
    }
    core.next_event()
}

/// Runs all shards on, block after block, until each stands right behind a height. Before it they stand right behind
/// one height that isn't above it, as at the opening behind 0. Heights count from 1, whatever lies below the first
/// block.
///
/// # Errors
///
/// Where memory runs out.
pub fn run_up_to<P: Phases>(core: &mut Core<P>, height: Height) -> Result<(), AllocError>
    requires within { height.0 ≤ (P.rules core.old.phases).heights }
    requires whole { core.old.lost ≡ false }
    requires behind { AreBehind (P.rules core.old.phases).shards height.0 core.old.positions }
    ensures phases { OnOk result (core.new.phases ≡ core.old.phases) }
    ensures whole { OnOk result (core.new.lost ≡ false) }
    ensures places { OnOk result (core.new.positions ≡ replicate (P.rules core.old.phases).shards (end_at height.0)) }
{
    while let Some(event) = event_up_to(core, height) {
        step_all(core, &[event])?;
    }
    Ok(())
}
