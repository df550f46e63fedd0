//! A shard at work.

ghost use Rattle.std.specs.Prelude.{◌≡◌, IfOk, vec_len};
ghost use Rattle.nr_workers.specs.Stages.{IsFresh, IsWorker};
ghost use Rattle.nr_workers.specs.Shards.{AreFresh, AreWorkers};

use crate::inbox::Inbox;
use crate::left::Left;
use nr_bytes::List;
use nr_exchange::{Exchange, Port, Serial};
use nr_ids::ShardId;
use nr_overlap::Phases;
use std::alloc::{AllocError, Global};

/// What a worker has in hand.
#[derive(Drop)]
pub(crate) enum Stage<W, K, L> {
    /// The world of the shard, between chunks.
    Idle(W),
    /// A chunk at work.
    Opened(K),
    /// The world behind a chunk that is sealed, and its lists, which aren't published yet.
    Sealed(W, List<L>),
    /// The last world, and the lists that no chunk takes.
    Ended(W, Left<L>),
    /// Nothing: memory was wanting, or a shard that it waited for has abandoned the run.
    Lost,
}

/// A shard that has published `height` heights.
#[derive(Drop)]
pub(crate) struct Worker<P: Phases> {
    pub inbox: Inbox<P>,
    pub shard: ShardId,
    pub height: u64,
    pub stage: Stage<P::World, P::Working, P::Parcel>,
    pub reports: Vec<P::Report>,
}

/// A worker that has done nothing.
fn begin<P: Phases>(
    alloc: Global,
    phases: &P,
    exchange: &Exchange<Serial<P>>,
    port: Port<Serial<P>>,
) -> Result<Worker<P>, AllocError>
    requires run { phases.now ≡ exchange.now.run.0 }
    requires port { IsFresh P.rules exchange.now port }
    ensures sound { IfOk result (λ worker. IsWorker P.rules exchange.now worker) }
    ensures shard { IfOk result (λ worker. worker.shard.0 ≡ port.note.shard) }
{
    let _exchange = exchange;
    let shard = port.shard();
    let world = phases.begin(alloc, shard)?;
    Ok(Worker {
        inbox: Inbox {
            port,
            done: 0,
            source: 0,
        },
        shard,
        height: 0,
        stage: Stage::Idle(world),
        reports: Vec::new(alloc),
    })
}

/// A worker for each port.
pub(crate) fn begin_all<P: Phases>(
    alloc: Global,
    phases: &P,
    exchange: &Exchange<Serial<P>>,
    ports: Vec<Port<Serial<P>>>,
) -> Result<Vec<Box<Worker<P>>>, AllocError>
    requires run { phases.now ≡ exchange.now.run.0 }
    requires ports { AreFresh P.rules exchange.now ports.items }
    ensures sound { IfOk result (λ workers. AreWorkers P.rules exchange.now workers.items) }
    ensures all { IfOk result (λ workers. vec_len workers ≡ vec_len ports) }
{
    let mut workers = Vec::new(alloc);
    let mut rest = ports.into_iter();
    while let Some(port) = rest.next() {
        let worker = begin(alloc, phases, exchange, port)?;
        workers.push(Box::new(alloc, worker)?)?;
    }
    Ok(workers)
}
