//! What workers come to that have done all.

ghost use Rattle.std.specs.Prelude.{◌≡◌, IfOk, vec_len};
ghost use Rattle.nr_overlap.specs.Outcome.{last_worlds, reports_by_shard, lists_left};
ghost use Rattle.nr_workers.specs.Outcome.{HasDoneAll, HaveDoneAll};
ghost use Rattle.nr_workers.specs.Stages.{IsWorker};
ghost use Rattle.nr_workers.specs.Each.{Each};
ghost use Rattle.nr_workers.specs.Shards.{AreWorkers};
ghost use Rattle.nr_workers.specs.Shares.{IsShareOf, HaveLeft};

use crate::gather::gather;
use crate::left::Left;
use crate::worker::{Stage, Worker};
use nr_bytes::List;
use nr_exchange::{Exchange, Port, Serial};
use nr_ids::{Height, ShardId};
use nr_overlap::Phases;
use std::alloc::{AllocError, Global};

/// What a run by workers came to.
#[derive(Drop)]
pub struct Finished<P: Phases> {
    /// For each shard, in order of number, the reports of its chunks, in order of height.
    pub reports: List<List<P::Report>>,
    /// The last world of each shard, in order of number.
    pub worlds: List<P::World>,
    /// Each list that no chunk takes, with its source, its height and its destination, in order of these three.
    pub left: List<(ShardId, Height, ShardId, P::Parcel)>,
    /// The port of each shard, in order of number. Each has published every height, and has claimed every list to its
    /// shard.
    pub ports: Vec<Port<Serial<P>>>,
}

/// What one worker came to.
#[derive(Drop)]
struct Share<P: Phases> {
    port: Port<Serial<P>>,
    world: P::World,
    reports: List<P::Report>,
    left: Left<P::Parcel>,
}

/// What a worker came to, if it has published every height and taken every list.
fn finish<P: Phases>(
    phases: &P,
    exchange: &Exchange<Serial<P>>,
    worker: Worker<P>,
) -> Result<Share<P>, AllocError>
    requires run { phases.now ≡ exchange.now.run.0 }
    requires sound { IsWorker P.rules exchange.now worker }
    ensures { IfOk result (λ share. IsShareOf P.rules exchange.now worker.shard.0 share) }
{
    let _exchange = exchange;
    let Worker {
        inbox,
        shard: _,
        height: _,
        stage,
        reports,
    } = worker;
    match stage {
        Stage::Ended(world, left) if inbox.done >= phases.heights() => Ok(Share {
            port: inbox.port,
            world,
            reports: List::of(reports),
            left,
        }),
        _ => Err(AllocError),
    }
}

/// Puts together what all workers came to.
fn put_together<P: Phases>(
    alloc: Global,
    phases: &P,
    exchange: &Exchange<Serial<P>>,
    reports: Vec<List<P::Report>>,
    worlds: Vec<P::World>,
    mut lefts: Vec<Left<P::Parcel>>,
    ports: Vec<Port<Serial<P>>>,
) -> Result<Finished<P>, AllocError>
    requires run { phases.now ≡ exchange.now.run.0 }
    requires worlds { worlds.items ≡ last_worlds (P.rules exchange.now.run.0) }
    requires reports { reports.items ≡ reports_by_shard (P.rules exchange.now.run.0) }
    requires lefts { HaveLeft (P.rules exchange.now.run.0) lefts.items }
    requires as_many { vec_len lefts ≡ (P.rules exchange.now.run.0).shards }
    requires ports { Each (HasDoneAll P.rules exchange.now) ports.items }
    requires all { vec_len ports ≡ (P.rules exchange.now.run.0).shards }
    ensures worlds { IfOk result (λ done. done.worlds ≡ last_worlds (P.rules phases.now)) }
    ensures reports { IfOk result (λ done. done.reports ≡ reports_by_shard (P.rules phases.now)) }
    ensures left { IfOk result (λ done. done.left ≡ lists_left (P.rules phases.now)) }
    ensures ports { IfOk result (λ done. HaveDoneAll P.rules exchange.now done.ports.items) }
{
    let _exchange = exchange;
    let left = gather(alloc, phases, &mut lefts)?;
    Ok(Finished {
        reports: List::of(reports),
        worlds: List::of(worlds),
        left: List::of(left),
        ports,
    })
}

/// What all workers came to.
pub(crate) fn finish_all<P: Phases>(
    alloc: Global,
    phases: &P,
    exchange: &Exchange<Serial<P>>,
    workers: Vec<Box<Worker<P>>>,
) -> Result<Finished<P>, AllocError>
    requires run { phases.now ≡ exchange.now.run.0 }
    requires sound { AreWorkers P.rules exchange.now workers.items }
    requires all { vec_len workers ≡ (P.rules exchange.now.run.0).shards }
    ensures worlds { IfOk result (λ done. done.worlds ≡ last_worlds (P.rules phases.now)) }
    ensures reports { IfOk result (λ done. done.reports ≡ reports_by_shard (P.rules phases.now)) }
    ensures left { IfOk result (λ done. done.left ≡ lists_left (P.rules phases.now)) }
    ensures ports { IfOk result (λ done. HaveDoneAll P.rules exchange.now done.ports.items) }
{
    let mut reports = Vec::new(alloc);
    let mut worlds = Vec::new(alloc);
    let mut lefts = Vec::new(alloc);
    let mut ports = Vec::new(alloc);
    let mut rest = workers.into_iter();
    while let Some(worker) = rest.next() {
        let share = finish(phases, exchange, Box::into_inner(worker))?;
        reports.push(share.reports)?;
        worlds.push(share.world)?;
        lefts.push(share.left)?;
        ports.push(share.port)?;
    }
    put_together(alloc, phases, exchange, reports, worlds, lefts, ports)
}
