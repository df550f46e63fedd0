//! Running a chunk again.

ghost use Rattle.std.specs.Prelude.{◌≡◌, IfOk};
ghost use Rattle.nr_bytes.specs.Answers.{Gives};
ghost use Rattle.nr_recheck.specs.Laws.{EndsWell};
ghost use Rattle.nr_recheck.specs.Rechecking.{asked, is_placed, memory_fault, prepared, rechecked};
ghost use Rattle.nr_recheck.specs.Running.{CanRun};
ghost use Rattle.nr_recheck.specs.declared.fault.RecheckFault.TheVariants.{Place};

use crate::bounds::check_bounds;
use crate::fault::RecheckFault;
use crate::knowing::{know_keys, know_receipts};
use crate::resuming::resume;
use crate::running::run_first;
use crate::walking::{queued, touched, walk};
use nr_bytes::List;
use nr_chunk::ChunkStore;
use nr_columns::Entry;
use nr_config::Config;
use nr_entries::bytes_law;
use nr_gathered::Gathered;
use nr_records::ChunkResult;
use nr_state::Caller;
use nr_stateless::Partial;
use nr_walk::Texts;
use nr_worlds::check_world;
use nr_worlds::laws::world_laws;
use std::alloc::Global;

fn check_place(gathered: &Gathered) -> Result<(), RecheckFault>
    ensures { result ≡ asked (is_placed gathered.now) Place }
{
    if gathered.height.0 > 0 && gathered.shard.0 < gathered.layout.shards() {
        Ok(())
    } else {
        Err(RecheckFault::Place)
    }
}

/// The entries from which the chunk is run, and what stands beside them.
#[tactic(auto, unfolding(crate::specs::Rechecking::prepared))]
fn prepare(
    alloc: Global,
    config: &Config,
    gathered: &Gathered,
) -> Result<(Partial, List<Entry>), RecheckFault>
    ensures gives { Gives memory_fault result (prepared config.now gathered.now) }
    ensures can { IfOk result (λ found. CanRun config.now gathered.now found.1) }
{
    world_laws();
    know_receipts(gathered.taken.inner());
    check_place(gathered)?;
    let texts = Texts::new(alloc, &gathered.texts)?;
    let delayed = queued(alloc, &texts, gathered)?;
    let accounts = touched(alloc, gathered, delayed.inner())?;
    let found = walk(alloc, &texts, gathered, &accounts)?;
    bytes_law(found.1.inner());
    check_world(alloc, &found.1, config)?;
    check_bounds(alloc, config, &found.1, gathered.taken.inner())?;
    Ok(found)
}

/// Runs a chunk again from the texts of nodes and values alone: the report of the chunk, as its run from the whole
/// state gives it.
///
/// # Errors
///
/// The first fault in this order: `Place`; the first one of the walk for the delayed queue (`Missing`, `BadText`,
/// `TooMany`); `NotWorld` where that gives no delayed queue; the first one of the walk for the accounts that the chunk
/// touches; `NotWorld` where that gives no valid world; `Bounds`. `Memory` where memory ran out.
#[tactic(auto, unfolding(crate::specs::Rechecking::rechecked))]
pub fn recheck<C: Caller<ChunkStore> + Drop>(
    alloc: Global,
    config: Config,
    caller: C,
    gathered: Gathered,
) -> Result<ChunkResult, RecheckFault>
    requires caller { C.config caller ≡ config }
    // Which answer it is.
    ensures gives { Gives memory_fault result (rechecked config (C.meaning caller) gathered) }
    // The world behind the chunk is one that a state can show.
    ensures ends { IfOk result (λ _. EndsWell config (C.meaning caller) gathered) }
{
    let (partial, entries) = prepare(alloc, &config, &gathered)?;
    let shard = gathered.shard;
    let chain = resume(alloc, (config, caller), gathered, entries)?;
    let (world, report) = run_first(alloc, &chain, shard)?;
    let after = world.entries()?;
    know_keys(after.inner());
    let root = partial.change(&after)?;
    Ok(ChunkResult { root, ..report })
}
