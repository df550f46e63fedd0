//! What holds while the threads of a run are at work.

ghost use Rattle.nr_chunk.specs.Runs.{chain_in};
ghost use Rattle.nr_settle.specs.Running.{HoldsWhileRunning};

use crate::watched::{Watch, Watched};
use nr_chunk::ChunkStore;
use nr_exchange::Serial;
use nr_state::Caller;

/// The replay theorem between any two steps of the threads of a run: where the exchange rule holds of words, places and
/// views, some list of events leads to positions with the numbers and claims of the views and each shard's own stage,
/// and what holds of each moment of a replay holds there. It does nothing when it runs.
pub fn running_law<C: Caller<ChunkStore>, W: Watch>(run: &Serial<Watched<C, W>>)
    ensures running { HoldsWhileRunning run.now (λ x. chain_in x.chain) }
{
    let _run = run;
}
