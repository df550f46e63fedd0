//! The threads of workers.

ghost use Rattle.std.specs.Prelude.{◌≡◌, ℕ, IfOk, length, vec_len, box_value};
ghost use Rattle.std.specs.Thread.{IsSend};
ghost use Rattle.nr_workers.specs.Stages.{IsWorkerOf};
ghost use Rattle.nr_workers.specs.Shards.{AreWorkers};
ghost use Rattle.nr_workers.specs.Each.{Each, Keeps};
ghost use Rattle.nr_workers.specs.Crew.{IsStartedAs};

use crate::gate::Gate;
use crate::steps::{Turn, make_turn};
use crate::worker::Worker;
use nr_exchange::{Exchange, Serial};
use nr_overlap::Phases;
use std::alloc::{AllocError, Global};
use std::snapshot::Snapshot;
use std::sync::Wait;
use std::sync::atomic::{AtomicBool, Ordering};
use std::thread;
use std::thread::{Promise, PromisedHandle, Scope, Threads};

/// How many steps a thread's worker makes in one turn. What it has in hand is moved once a turn.
const STEPS: u32 = 64;

/// What the workers of a run need.
#[derive(Drop)]
pub(crate) struct Run<'r, R: Wait, P: Phases, G: Gate> {
    pub rt: &'r R,
    pub alloc: Global,
    pub phases: &'r P,
    pub exchange: &'r Exchange<Serial<P>>,
    pub gate: &'r G,
}

/// Runs a worker until it has nothing more to do.
fn work<R: Wait, P: Phases, G: Gate>(
    run: &Run<R, P, G>,
    mut worker: Box<Worker<P>>,
) -> Box<Worker<P>>
    requires run { run.now.phases.now ≡ run.now.exchange.now.run.0 }
    requires sound { (s : ℕ) × IsWorkerOf P.rules run.now.exchange.now s (box_value worker) }
    ensures { Keeps (IsWorkerOf P.rules run.now.exchange.now) (box_value worker) (box_value result) }
{
    for _ in run.rt.forever() {
        match make_turn(
            run.alloc,
            run.phases,
            run.exchange,
            run.gate,
            STEPS,
            &mut worker,
        ) {
            Turn::Moved => {}
            Turn::Waits => thread::yield_now(),
            Turn::Done | Turn::Failed => break,
        }
    }
    worker
}

/// A thread's promise to give back the worker of a shard.
#[derive(Drop)]
pub(crate) struct GivesBack<P: Phases> {
    exchange: Snapshot<Exchange<Serial<P>>>,
    shard: usize,
}

impl<P: Phases> Promise<Box<Worker<P>>> for GivesBack<P> {
    ghost use Rattle.std.specs.Prelude.{box_value};
    ghost use Rattle.nr_workers.specs.Stages.{IsWorkerOf};

    ghost kept_by = { λ p w. IsWorkerOf P.rules p.exchange.value p.shard (box_value w) };
}

/// A worker in a thread of its own, or one for which none could be started.
#[derive(Drop)]
pub(crate) enum Started<P: Phases> {
    Thread(PromisedHandle<Box<Worker<P>>, GivesBack<P>>),
    Here(Box<Worker<P>>),
}

/// What a function gives.
fn call<T, F: FnOnce() -> T>(f: F) -> T
    requires { F.pre f }
    ensures { F.post f result }
{
    f()
}

/// Starts the worker of a shard in a thread. Where none can be started the worker stays here. The flag is this
/// worker's own.
fn start<'s, E, R: Wait + Sync, P: Phases + Sync, G: Gate + Sync>(
    scope: &Scope<'s, E>,
    run: &'s Run<'s, R, P, G>,
    stays: &'s AtomicBool,
    shard: usize,
    worker: Box<Worker<P>>,
) -> Started<P>
    requires run { run.now.phases.now ≡ run.now.exchange.now.run.0 }
    requires sound { IsWorkerOf P.rules run.now.exchange.now shard (box_value worker) }
    ensures { IsStartedAs P.rules run.entry.now.exchange.now shard result }
{
    let promise = GivesBack {
        exchange: Snapshot::of(run.exchange),
        shard,
    };
    match scope.spawn_with(
        promise,
        move || -> Box<Worker<P>>
            requires send { IsSend P.World.row × IsSend P.Working.row × IsSend P.Parcel.row × IsSend P.Report.row }
            requires run { run.now.phases.now ≡ run.now.exchange.now.run.0 }
            requires sound { IsWorkerOf P.rules run.now.exchange.now shard (box_value worker) }
            ensures { IsWorkerOf P.rules run.entry.now.exchange.now shard (box_value result) }
        {
            let _shard = shard;
            if stays.load(Ordering::SeqCst) {
                worker
            } else {
                work(run, worker)
            }
        },
    ) {
        Ok(handle) => Started::Thread(handle),
        Err(refused) => {
            stays.store(true, Ordering::SeqCst);
            Started::Here(call(refused.value))
        }
    }
}

/// Starts all workers. Nothing can fail once a thread runs, since the others may wait for each worker.
fn start_all<'s, E, R: Wait + Sync, P: Phases + Sync, G: Gate + Sync>(
    scope: &Scope<'s, E>,
    run: &'s Run<'s, R, P, G>,
    flags: &'s [AtomicBool],
    workers: Vec<Box<Worker<P>>>,
) -> Result<Vec<Started<P>>, AllocError>
    requires run { run.now.phases.now ≡ run.now.exchange.now.run.0 }
    requires sound { AreWorkers P.rules run.now.exchange.now workers.items }
    requires flags { length flags.now ≡ vec_len workers }
    ensures sound { IfOk result (λ started. Each (IsStartedAs P.rules run.entry.now.exchange.now) started.items) }
    ensures all { IfOk result (λ started. vec_len started ≡ vec_len workers) }
{
    let mut started = Vec::with_capacity(run.alloc, workers.len())?;
    let mut rest = workers.into_iter();
    while let Some(worker) = rest.next() {
        let shard = started.len();
        started.push_reserved(start(scope, run, &flags[shard], shard, worker));
    }
    Ok(started)
}

/// Makes a step of a worker that has no thread. The answer is whether it goes on.
fn step_here<R: Wait, P: Phases, G: Gate>(run: &Run<R, P, G>, started: &mut Started<P>) -> bool
    requires run { run.now.phases.now ≡ run.now.exchange.now.run.0 }
    requires sound { (s : ℕ) × IsStartedAs P.rules run.now.exchange.now s started.old }
    ensures { Keeps (IsStartedAs P.rules run.now.exchange.now) started.old started.new }
{
    match started {
        Started::Thread(_) => false,
        Started::Here(worker) => {
            match make_turn(run.alloc, run.phases, run.exchange, run.gate, 1, worker) {
                Turn::Moved | Turn::Waits => true,
                Turn::Done | Turn::Failed => false,
            }
        }
    }
}

/// Makes a step of each worker that has no thread. The answer is whether one goes on.
fn step_each<R: Wait, P: Phases, G: Gate>(run: &Run<R, P, G>, started: &mut Vec<Started<P>>) -> bool
    requires run { run.now.phases.now ≡ run.now.exchange.now.run.0 }
    requires sound { Each (IsStartedAs P.rules run.now.exchange.now) started.old.items }
    ensures sound { Each (IsStartedAs P.rules run.now.exchange.now) started.new.items }
    ensures all { vec_len started.new ≡ vec_len started.old }
{
    let mut goes_on = false;
    for i in 0..started.len() {
        if step_here(run, &mut started[i]) {
            goes_on = true;
        }
    }
    goes_on
}

/// Runs the workers that have no thread, in turns, until none of them has anything more to do.
fn run_in_turns<R: Wait, P: Phases, G: Gate>(run: &Run<R, P, G>, started: &mut Vec<Started<P>>)
    requires run { run.now.phases.now ≡ run.now.exchange.now.run.0 }
    requires sound { Each (IsStartedAs P.rules run.now.exchange.now) started.old.items }
    ensures sound { Each (IsStartedAs P.rules run.now.exchange.now) started.new.items }
    ensures all { vec_len started.new ≡ vec_len started.old }
{
    for _ in run.rt.forever() {
        if !step_each(run, started) {
            break;
        }
        thread::yield_now();
    }
}

/// Waits for a worker's thread, if it has one.
fn join<R: Threads, P: Phases>(
    rt: &R,
    exchange: &Exchange<Serial<P>>,
    started: Started<P>,
) -> Box<Worker<P>>
    requires { (s : ℕ) × IsStartedAs P.rules exchange.now s started }
    ensures { (s : ℕ) → IsStartedAs P.rules exchange.now s started
        → IsWorkerOf P.rules exchange.now s (box_value result) }
{
    let _exchange = exchange;
    match started {
        Started::Thread(handle) => handle.join(rt),
        Started::Here(worker) => worker,
    }
}

/// Waits for all threads, and gives the workers in order.
fn join_all<R: Threads, P: Phases>(
    rt: &R,
    alloc: Global,
    exchange: &Exchange<Serial<P>>,
    started: Vec<Started<P>>,
) -> Result<Vec<Box<Worker<P>>>, AllocError>
    requires { Each (IsStartedAs P.rules exchange.now) started.items }
    ensures sound { IfOk result (λ workers. AreWorkers P.rules exchange.now workers.items) }
    ensures all { IfOk result (λ workers. vec_len workers ≡ vec_len started) }
{
    let mut workers = Vec::new(alloc);
    let mut rest = started.into_iter();
    while let Some(one) = rest.next() {
        workers.push(join(rt, exchange, one))?;
    }
    Ok(workers)
}

/// Runs all workers until none has anything more to do, and gives them back in order. Those for which no thread can be
/// started are run here, in turns.
pub(crate) fn run_all<'s, E, R: Threads + Wait + Sync, P: Phases + Sync, G: Gate + Sync>(
    scope: &Scope<'s, E>,
    run: &'s Run<'s, R, P, G>,
    flags: &'s [AtomicBool],
    workers: Vec<Box<Worker<P>>>,
) -> Result<Vec<Box<Worker<P>>>, AllocError>
    requires run { run.now.phases.now ≡ run.now.exchange.now.run.0 }
    requires sound { AreWorkers P.rules run.now.exchange.now workers.items }
    requires flags { length flags.now ≡ vec_len workers }
    ensures sound { IfOk result (λ ended. AreWorkers P.rules run.entry.now.exchange.now ended.items) }
    ensures all { IfOk result (λ ended. vec_len ended ≡ vec_len workers) }
{
    let mut started = start_all(scope, run, flags, workers)?;
    run_in_turns(run, &mut started);
    join_all(run.rt, run.alloc, run.exchange, started)
}
