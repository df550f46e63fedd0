//! The threads of a run.

ghost use Rattle.std.specs.Prelude.{◌≡◌, ◌<◌, IfOk};
ghost use Rattle.nr_overlap.specs.Outcome.{last_worlds, lists_left, reports_by_shard};

use nr_blocks::MOST_BLOCKS;
use nr_exchange::{Serial, make_exchange};
use nr_overlap::Phases;
use nr_workers::{Finished, Gate, run_shards};
use std::alloc::{AllocError, Global};
use std::sync::Wait;
use std::thread::Threads;

/// Runs all shards to the end, each in a thread of its own. More blocks than a file may have count as want of memory.
pub(crate) fn run_beside<R: Threads + Wait + Sync, P: Phases + Sync, G: Gate + Sync>(
    rt: &R,
    alloc: Global,
    gate: &G,
    run: &Serial<P>,
) -> Result<Finished<P>, AllocError>
    requires some { 0 < (P.rules run.now.0).shards }
    ensures worlds { IfOk result (λ done. done.worlds ≡ last_worlds (P.rules run.now.0)) }
    ensures reports { IfOk result (λ done. done.reports ≡ reports_by_shard (P.rules run.now.0)) }
    ensures left { IfOk result (λ done. done.left ≡ lists_left (P.rules run.now.0)) }
{
    if run.0.heights() > MOST_BLOCKS as u64 {
        return Err(AllocError);
    }
    let (exchange, ports) = make_exchange(alloc, run)?;
    run_shards(rt, alloc, &run.0, &exchange, ports, gate)
}
