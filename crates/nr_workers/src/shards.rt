//! A worker for each shard, in a thread of its own where there is one.

ghost use Rattle.std.specs.Prelude.{◌≡◌, IfOk, length, map, vec_len};
ghost use Rattle.std.specs.Thread.{IsSend};
ghost use Rattle.nr_exchange.specs.Ports.{AreMade};
ghost use Rattle.nr_overlap.specs.Outcome.{last_worlds, reports_by_shard, lists_left};
ghost use Rattle.nr_workers.specs.Outcome.{HaveDoneAll};
ghost use Rattle.nr_workers.specs.Shards.{AreWorkers};

use crate::crew::{Run, run_all};
use crate::done::{Finished, finish_all};
use crate::gate::Gate;
use crate::worker::{Worker, begin_all};
use nr_exchange::{Exchange, Port, Serial};
use nr_overlap::Phases;
use std::alloc::{AllocError, Global};
use std::sync::Wait;
use std::sync::atomic::AtomicBool;
use std::thread;
use std::thread::Threads;

fn flags_for(alloc: Global, count: usize) -> Result<Vec<AtomicBool>, AllocError>
    ensures { IfOk result (λ flags. vec_len flags ≡ count) }
{
    let mut flags = Vec::new(alloc);
    for _number in 0..count {
        flags.push(AtomicBool::new(false))?;
    }
    Ok(flags)
}

/// Runs the shards of a run beside each other, each in a thread of its own. Those for which no thread can be started
/// are run by the caller, in turns, one step of each at a time.
///
/// Each shard takes the lists that are due to it from the exchange, and publishes its own there. What they come to is
/// the serial run, whatever the threads do. The ports that come back are those that were taken. Nothing says when it
/// ends.
///
/// # Errors
///
/// Where memory is wanting, to this call or to a phase of a chunk. Then all threads have ended.
pub fn run_shards<R: Threads + Wait + Sync, P: Phases + Sync, G: Gate + Sync>(
    rt: &R,
    alloc: Global,
    phases: &P,
    exchange: &Exchange<Serial<P>>,
    ports: Vec<Port<Serial<P>>>,
    gate: &G,
) -> Result<Finished<P>, AllocError>
    requires run { phases.now ≡ exchange.now.run.0 }
    requires ports { AreMade exchange.now (P.rules exchange.now.run.0).shards (P.rules exchange.now.run.0).shards
        ports.items }
    ensures worlds { IfOk result (λ done. done.worlds ≡ last_worlds (P.rules phases.now)) }
    ensures reports { IfOk result (λ done. done.reports ≡ reports_by_shard (P.rules phases.now)) }
    ensures left { IfOk result (λ done. done.left ≡ lists_left (P.rules phases.now)) }
    ensures ports { IfOk result (λ done. HaveDoneAll P.rules exchange.now done.ports.items) }
    ensures seats { IfOk result (λ done. map (λ p. p.seat) done.ports.items ≡ map (λ p. p.seat) ports.items) }
{
    let workers = begin_all(alloc, phases, exchange, ports)?;
    let flags = flags_for(alloc, workers.len())?;
    let flags = flags.as_slice();
    let run = Run {
        rt,
        alloc,
        phases,
        exchange,
        gate,
    };
    let run = &run;
    let ended = thread::scope(
        thread::scope_env(),
        rt,
        |scope| -> Result<Vec<Box<Worker<P>>>, AllocError>
            requires send { IsSend P.World.row × IsSend P.Working.row × IsSend P.Parcel.row × IsSend P.Report.row }
            requires run { run.now.phases.now ≡ run.now.exchange.now.run.0 }
            requires sound { AreWorkers P.rules run.now.exchange.now workers.items }
            requires flags { length flags.now ≡ vec_len workers }
            ensures sound { IfOk result (λ ended. AreWorkers P.rules run.entry.now.exchange.now ended.items) }
            ensures all { IfOk result (λ ended. vec_len ended ≡ vec_len workers) }
        { run_all(scope, run, flags, workers) },
    )?;
    finish_all(alloc, phases, exchange, ended)
}
