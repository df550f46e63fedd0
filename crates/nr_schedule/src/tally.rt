//! What a run holds at a moment.

ghost use Rattle.std.specs.Prelude.{◌≡◌, ◌+◌, ◌<◌, IfOk};
ghost use Rattle.nr_chunk.specs.Chain.{rules_of};
ghost use Rattle.nr_overlap.specs.Moment.{flight_at};
ghost use Rattle.nr_schedule.specs.Moments.{IsMoment};
ghost use Rattle.nr_chunk.specs.Runs.{chain_in};
ghost use Rattle.nr_places.specs.Totals.{list_tally, flying_from, held_by, plus, sealed_by};
ghost use Rattle.nr_places.specs.Totals.{tally_of, tally_at, tally_below};

use nr_chunk::{ChainRun, ChunkStore, Tally};
use nr_ids::{Height, ShardId};
use nr_outcome::{add_report, added, no_tally};
use nr_overlap::{Core, Phases};
use nr_state::Caller;
use std::alloc::{AllocError, Global};

/// What a shard holds in its world, or in its chunk at work.
fn held_by<C: Caller<ChunkStore>>(
    alloc: Global,
    core: &Core<ChainRun<C>>,
    shard: ShardId,
) -> Result<Tally, AllocError>
    requires moment { IsMoment core.now }
    requires inside { shard.0 < (rules_of (chain_in core.now.phases)).shards }
    ensures { IfOk result (λ tally. tally ≡ held_by (chain_in core.now.phases) core.now.positions shard.0) }
{
    if let Some(world) = core.world(shard) {
        return core.phases().tally_world(alloc, world);
    }
    match core.working(shard) {
        Some(working) => core.phases().tally_working(alloc, working),
        None => unreachable!(),
    }
}

/// What a list holds that no chunk took.
fn flying<C: Caller<ChunkStore>>(
    core: &Core<ChainRun<C>>,
    source: ShardId,
    height: Height,
    dest: ShardId,
) -> Tally
    requires moment { IsMoment core.now }
    requires source { source.0 < (rules_of (chain_in core.now.phases)).shards }
    requires dest { dest.0 < (rules_of (chain_in core.now.phases)).shards }
    ensures { let r = rules_of (chain_in core.now.phases) in
        result ≡ list_tally core.now.phases.config (flight_at r core.now.positions source.0 height.0 dest.0) }
{
    match core.flight(source, height, dest) {
        Some(list) => core.phases().tally_list(list),
        None => no_tally(),
    }
}

/// What the lists of a chunk hold that no chunk took.
#[tactic(auto, unfolding(nr_places::specs::Totals::tally_below))]
fn flying_from<C: Caller<ChunkStore>>(
    core: &Core<ChainRun<C>>,
    shard: ShardId,
    height: Height,
) -> Result<Tally, AllocError>
    requires moment { IsMoment core.now }
    requires inside { shard.0 < (rules_of (chain_in core.now.phases)).shards }
    ensures { let x = chain_in core.now.phases in
        IfOk result (λ tally. tally ≡ flying_from x core.now.positions shard.0 height.0) }
{
    let mut sum = no_tally();
    for dest in 0..core.phases().shards() {
        sum = added(sum, flying(core, shard, height, ShardId(dest)))?;
    }
    Ok(sum)
}

/// What a chunk holds that is sealed.
fn sealed_by<C: Caller<ChunkStore>>(
    core: &Core<ChainRun<C>>,
    shard: ShardId,
    height: Height,
) -> Result<Tally, AllocError>
    requires moment { IsMoment core.now }
    requires inside { shard.0 < (rules_of (chain_in core.now.phases)).shards }
    ensures { IfOk result (λ tally. tally ≡ sealed_by (chain_in core.now.phases) core.now.positions shard.0 height.0) }
{
    let lists = flying_from(core, shard, height)?;
    let sealed = add_report(lists, core.report(shard, height))?;
    Ok(sealed)
}

/// What all sealed chunks of a shard hold.
#[tactic(auto, unfolding(nr_places::specs::Totals::tally_below))]
fn all_sealed_by<C: Caller<ChunkStore>>(
    core: &Core<ChainRun<C>>,
    shard: ShardId,
) -> Result<Tally, AllocError>
    requires moment { IsMoment core.now }
    requires inside { shard.0 < (rules_of (chain_in core.now.phases)).shards }
    ensures { let x = chain_in core.now.phases in
        IfOk result (λ tally. tally
        ≡ tally_below (rules_of x).heights (λ h. sealed_by x core.now.positions shard.0 (h + 1))) }
{
    let mut sum = no_tally();
    for below in 0..core.phases().heights() {
        sum = added(sum, sealed_by(core, shard, Height(below + 1))?)?;
    }
    Ok(sum)
}

fn tally_of<C: Caller<ChunkStore>>(
    alloc: Global,
    core: &Core<ChainRun<C>>,
    shard: ShardId,
) -> Result<Tally, AllocError>
    requires moment { IsMoment core.now }
    requires inside { shard.0 < (rules_of (chain_in core.now.phases)).shards }
    ensures { IfOk result (λ tally. tally ≡ tally_of (chain_in core.now.phases) core.now.positions shard.0) }
{
    let held = held_by(alloc, core, shard)?;
    let sealed = all_sealed_by(core, shard)?;
    added(held, sealed)
}

/// What all shards hold.
#[tactic(auto, unfolding(nr_places::specs::Totals::tally_below))]
fn tally_at<C: Caller<ChunkStore>>(
    alloc: Global,
    core: &Core<ChainRun<C>>,
) -> Result<Tally, AllocError>
    requires moment { IsMoment core.now }
    ensures { IfOk result (λ tally. tally ≡ tally_at (chain_in core.now.phases) core.now.positions) }
{
    let mut sum = no_tally();
    for shard in 0..core.phases().shards() {
        sum = added(sum, tally_of(alloc, core, ShardId(shard))?)?;
    }
    Ok(sum)
}

/// What all shards hold, with what is past of an earlier leg.
///
/// # Errors
///
/// Where memory runs out, or a sum doesn't fit its number.
pub(crate) fn tally_all<C: Caller<ChunkStore>>(
    alloc: Global,
    core: &Core<ChainRun<C>>,
    past: Tally,
) -> Result<Tally, AllocError>
    requires moment { IsMoment core.now }
    ensures { IfOk result (λ tally. tally ≡ plus past (tally_at (chain_in core.now.phases) core.now.positions)) }
{
    let tally = tally_at(alloc, core)?;
    added(past, tally)
}
