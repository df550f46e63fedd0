//! What a run by threads came to.

ghost use Rattle.std.specs.Prelude.{◌≡◌, IfOk};
ghost use Rattle.nr_chunk.specs.Start.{start_tokens};

use crate::threads::run_beside;
use crate::watched::{Watch, Watched};
use nr_chunk::ChunkStore;
use nr_exchange::Serial;
use nr_outcome::Outcome;
use nr_state::Caller;
use nr_workers::{Finished, Gate};
use std::alloc::{AllocError, Global};
use std::sync::Wait;
use std::thread::Threads;

/// Runs all shards of a chain to its end, each in a thread of its own. The supply is what the chain's start has in
/// tokens. Each shard passes the gate at three moments of each of its chunks, and whoever watches the chain is shown
/// each report, and given back. Shards for which no thread can be started are run in turns by the caller. Nothing
/// says that it comes back.
///
/// # Errors
///
/// Where memory runs out; then all threads have ended. More blocks than [`MOST_BLOCKS`](nr_blocks::MOST_BLOCKS) count
/// as that.
pub fn run_to_end<
    R: Threads + Wait + Sync,
    C: Caller<ChunkStore> + Drop + Send + Sync,
    W: Watch + Drop + Send + Sync,
    G: Gate + Sync,
>(
    rt: &R,
    alloc: Global,
    gate: &G,
    run: Serial<Watched<C, W>>,
    supply: u128,
) -> Result<(Outcome<C>, W), AllocError>
    requires { supply ≡ start_tokens run.0.chain.config run.0.chain.grounds.start }
    ensures { IfOk result (λ made. made.0.chain ≡ run.0.chain) }
{
    let Finished {
        reports,
        worlds,
        left,
        ports: _,
    } = run_beside(rt, alloc, gate, &run)?;
    let Serial(Watched { chain, watch }) = run;
    let outcome = Outcome::new(alloc, chain, reports, worlds, left, supply)?;
    Ok((outcome, watch))
}
