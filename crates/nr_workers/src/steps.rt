//! The steps of a worker.

ghost use Rattle.std.specs.Prelude.{◌≡◌, ℕ, ◌+◌, ◌<◌, ◌≤◌, true, false, IfOk, IfSome, OnOk};
ghost use Rattle.nr_overlap.specs.Serial.{with_list};
ghost use Rattle.nr_exchange.specs.Plan.{plan_of};
ghost use Rattle.nr_exchange.specs.Notes.{link};
ghost use Rattle.nr_exchange.specs.Ports.{IsPortOf};
ghost use Rattle.nr_exchange.specs.SerialPlan.{serial_plan};
ghost use Rattle.nr_workers.specs.Stages.{IsWorkerAt, IsWorker, number_after};
ghost use Rattle.nr_workers.specs.declared.steps.Took.TheVariants.{All};
ghost use Rattle.nr_workers.specs.declared.worker.Stage.TheVariants.{Idle, Opened, Sealed, Ended};

use crate::gate::{Gate, Moment};
use crate::inbox::Found;
use crate::left::Left;
use crate::worker::{Stage, Worker};
use nr_bytes::List;
use nr_exchange::{Exchange, Port, Serial};
use nr_ids::Height;
use nr_overlap::Phases;
use std::alloc::{AllocError, Global};
use std::mem;

/// What a turn came to.
#[derive(Clone, Copy, Debug, PartialEq, Eq)]
pub(crate) enum Turn {
    /// The worker made a step.
    Moved,
    /// The next list isn't there yet, or there is no room for one.
    Waits,
    /// There is nothing more to do.
    Done,
    /// The worker gave up.
    Failed,
}

/// What a try to take the next list came to.
#[derive(Clone, Copy, Debug, PartialEq, Eq)]
enum Took {
    /// It is taken, or its source has no chunk.
    One,
    /// It isn't published yet.
    Waits,
    /// All are taken.
    All,
}

/// Goes past a height without a chunk. The world stays in hand.
fn skip_next<P: Phases>(
    phases: &P,
    exchange: &Exchange<Serial<P>>,
    worker: &mut Worker<P>,
    world: &P::World,
)
    requires run { phases.now ≡ exchange.now.run.0 }
    requires at { IsWorkerAt P.rules exchange.now worker.old (Idle world.now) }
    requires below { worker.old.height < (P.rules exchange.now.run.0).heights }
    requires missing { (P.rules exchange.now.run.0).present worker.old.shard.0 (worker.old.height + 1) ≡ false }
    ensures shard { worker.new.shard ≡ worker.old.shard }
    ensures at { IsWorkerAt P.rules exchange.now worker.new (Idle world.now) }
{
    let _world = world;
    let _heights = phases.heights();
    worker.inbox.port.skip(exchange, Height(worker.height + 1));
    worker.height += 1;
}

/// Opens the next chunk.
fn open_next<P: Phases, G: Gate>(
    alloc: Global,
    phases: &P,
    exchange: &Exchange<Serial<P>>,
    gate: &G,
    worker: &mut Worker<P>,
    world: P::World,
) -> Result<(), AllocError>
    requires run { phases.now ≡ exchange.now.run.0 }
    requires at { IsWorkerAt P.rules exchange.now worker.old (Idle world) }
    requires below { worker.old.height < (P.rules exchange.now.run.0).heights }
    requires there { (P.rules exchange.now.run.0).present worker.old.shard.0 (worker.old.height + 1) ≡ true }
    ensures shard { worker.new.shard ≡ worker.old.shard }
    ensures at { OnOk result (IsWorkerAt P.rules exchange.now worker.new worker.new.stage) }
    ensures port { IsPortOf (serial_plan P.rules) exchange.now worker.new.inbox.port }
{
    let _shards = phases.shards();
    let _heights = phases.heights();
    let height = Height(worker.height + 1);
    gate.pass(worker.shard, height, Moment::BeforeOpen);
    let working = phases.open_chunk(alloc, worker.shard, height, world)?;
    worker.stage = Stage::Opened(working);
    Ok(())
}

/// Comes to the end behind the last height.
fn end_next<P: Phases>(
    alloc: Global,
    phases: &P,
    exchange: &Exchange<Serial<P>>,
    worker: &mut Worker<P>,
    world: P::World,
) -> Result<(), AllocError>
    requires run { phases.now ≡ exchange.now.run.0 }
    requires at { IsWorkerAt P.rules exchange.now worker.old (Idle world) }
    requires last { worker.old.height ≡ (P.rules exchange.now.run.0).heights }
    ensures shard { worker.new.shard ≡ worker.old.shard }
    ensures at { OnOk result (IsWorkerAt P.rules exchange.now worker.new worker.new.stage) }
    ensures port { IsPortOf (serial_plan P.rules) exchange.now worker.new.inbox.port }
{
    let _exchange = exchange;
    let left = Left::new(alloc, phases.shards())?;
    worker.stage = Stage::Ended(world, left);
    Ok(())
}

/// Gives a list to the chunk, if there is one.
fn give<P: Phases>(
    alloc: Global,
    phases: &P,
    working: &mut P::Working,
    list: Option<P::Parcel>,
) -> Result<(), AllocError>
    requires list { IfSome list (λ l. P.can_take phases.now working.old l) }
    ensures { OnOk result (working.new ≡ with_list (P.rules phases.now) working.old list) }
{
    match list {
        Some(list) => phases.take_list(alloc, working, list),
        None => Ok(()),
    }
}

/// Seals the chunk.
fn seal_next<P: Phases, G: Gate>(
    alloc: Global,
    phases: &P,
    exchange: &Exchange<Serial<P>>,
    gate: &G,
    worker: &mut Worker<P>,
    working: P::Working,
) -> Result<(), AllocError>
    requires run { phases.now ≡ exchange.now.run.0 }
    requires at { IsWorkerAt P.rules exchange.now worker.old (Opened working) }
    requires all { worker.old.height ≤ worker.old.inbox.done }
    ensures shard { worker.new.shard ≡ worker.old.shard }
    ensures at { OnOk result (IsWorkerAt P.rules exchange.now worker.new worker.new.stage) }
    ensures port { IsPortOf (serial_plan P.rules) exchange.now worker.new.inbox.port }
{
    let _exchange = exchange;
    let _shards = phases.shards();
    let _heights = phases.heights();
    let (world, report, lists) = phases.seal_chunk(alloc, working)?;
    worker.reports.push(report)?;
    gate.pass(worker.shard, Height(worker.height + 1), Moment::AfterSeal);
    worker.stage = Stage::Sealed(world, lists);
    Ok(())
}

/// Tries to publish lists. Where a link has no room they come back. A run that the destination of such a link has
/// abandoned is as good as want of memory.
fn publish<P: Phases>(
    exchange: &Exchange<Serial<P>>,
    port: &mut Port<Serial<P>>,
    height: Height,
    lists: List<P::Parcel>,
) -> Result<Option<List<P::Parcel>>, AllocError>
    requires port { IsPortOf (serial_plan P.rules) exchange.now port.old }
    requires next { height.0 ≡ port.old.note.number + 1 }
    requires last { height.0 ≤ (P.rules exchange.now.run.0).heights }
    requires there { (P.rules exchange.now.run.0).present port.old.note.shard height.0 ≡ true }
    requires lists { lists ≡ (plan_of (P.rules exchange.now.run.0)).lists port.old.note.shard height.0 }
    ensures port { IsPortOf (serial_plan P.rules) exchange.now port.new }
    ensures shard { port.new.note.shard ≡ port.old.note.shard }
    ensures number { IfOk result (λ back. port.new.note.number ≡ number_after back port.old.note.number) }
    ensures lists { IfOk result (λ back. IfSome back (λ same. same ≡ lists)) }
    ensures claims { (t : ℕ) → (link port.new.note t).claimed ≡ (link port.old.note t).claimed }
{
    match port.publish(exchange, height, lists) {
        Ok(()) => Ok(None),
        Err(full) => {
            if port.has_abandoned(exchange, full.dest) {
                return Err(AllocError);
            }
            Ok(Some(full.lists))
        }
    }
}

/// Tries to publish the lists of the chunk that is sealed.
fn sealed_turn<P: Phases, G: Gate>(
    phases: &P,
    exchange: &Exchange<Serial<P>>,
    gate: &G,
    worker: &mut Worker<P>,
    world: P::World,
    lists: List<P::Parcel>,
) -> Result<Turn, AllocError>
    requires run { phases.now ≡ exchange.now.run.0 }
    requires at { IsWorkerAt P.rules exchange.now worker.old (Sealed world lists) }
    ensures shard { worker.new.shard ≡ worker.old.shard }
    ensures at { OnOk result (IsWorkerAt P.rules exchange.now worker.new worker.new.stage) }
    ensures port { IsPortOf (serial_plan P.rules) exchange.now worker.new.inbox.port }
{
    let _heights = phases.heights();
    let height = Height(worker.height + 1);
    match publish(exchange, &mut worker.inbox.port, height, lists)? {
        Some(lists) => {
            worker.stage = Stage::Sealed(world, lists);
            Ok(Turn::Waits)
        }
        None => {
            gate.pass(worker.shard, height, Moment::AfterPublish);
            worker.height += 1;
            worker.stage = Stage::Idle(world);
            Ok(Turn::Moved)
        }
    }
}

/// Tries to take the next list into the chunk.
fn take_one<P: Phases>(
    alloc: Global,
    phases: &P,
    exchange: &Exchange<Serial<P>>,
    worker: &mut Worker<P>,
    working: &mut P::Working,
) -> Result<Took, AllocError>
    requires run { phases.now ≡ exchange.now.run.0 }
    requires at { IsWorkerAt P.rules exchange.now worker.old (Opened working.old) }
    ensures shard { worker.new.shard ≡ worker.old.shard }
    ensures at { OnOk result (IsWorkerAt P.rules exchange.now worker.new (Opened working.new)) }
    ensures all { IfOk result (λ took. took ≡ All → worker.new.height ≤ worker.new.inbox.done) }
    ensures port { IsPortOf (serial_plan P.rules) exchange.now worker.new.inbox.port }
{
    let _shards = phases.shards();
    match worker.inbox.take_next(phases, exchange, worker.height)? {
        Found::Passed(list) => {
            give(alloc, phases, working, list)?;
            Ok(Took::One)
        }
        Found::Waits => Ok(Took::Waits),
        Found::All => Ok(Took::All),
    }
}

/// Takes the next lists into the chunk, as far as they are there and up to so many, and seals it when all are taken.
fn opened_turn<P: Phases, G: Gate>(
    alloc: Global,
    phases: &P,
    exchange: &Exchange<Serial<P>>,
    gate: &G,
    steps: u32,
    worker: &mut Worker<P>,
    mut working: P::Working,
) -> Result<Turn, AllocError>
    requires run { phases.now ≡ exchange.now.run.0 }
    requires at { IsWorkerAt P.rules exchange.now worker.old (Opened working) }
    ensures shard { worker.new.shard ≡ worker.old.shard }
    ensures at { OnOk result (IsWorkerAt P.rules exchange.now worker.new worker.new.stage) }
    ensures port { IsPortOf (serial_plan P.rules) exchange.now worker.new.inbox.port }
{
    for _step in 0..steps {
        match take_one(alloc, phases, exchange, worker, &mut working)? {
            Took::One => {}
            Took::Waits => {
                worker.stage = Stage::Opened(working);
                return Ok(Turn::Waits);
            }
            Took::All => {
                seal_next(alloc, phases, exchange, gate, worker, working)?;
                return Ok(Turn::Moved);
            }
        }
    }
    worker.stage = Stage::Opened(working);
    Ok(Turn::Moved)
}

/// Tries to take the next list that no chunk takes.
fn keep_one<P: Phases>(
    phases: &P,
    exchange: &Exchange<Serial<P>>,
    worker: &mut Worker<P>,
    world: &P::World,
    left: &mut Left<P::Parcel>,
) -> Result<Took, AllocError>
    requires run { phases.now ≡ exchange.now.run.0 }
    requires at { IsWorkerAt P.rules exchange.now worker.old (Ended world.now left.old) }
    ensures shard { worker.new.shard ≡ worker.old.shard }
    ensures at { OnOk result (IsWorkerAt P.rules exchange.now worker.new (Ended world.now left.new)) }
    ensures port { IsPortOf (serial_plan P.rules) exchange.now worker.new.inbox.port }
{
    let _world = world;
    let source = worker.inbox.source;
    let done = worker.inbox.done;
    match worker.inbox.take_next(phases, exchange, worker.height)? {
        Found::Passed(Some(list)) => {
            left.push(source, done + 1, list)?;
            Ok(Took::One)
        }
        Found::Passed(None) => Ok(Took::One),
        Found::Waits => Ok(Took::Waits),
        Found::All => Ok(Took::All),
    }
}

/// Takes the next lists that no chunk takes, as far as they are there and up to so many.
fn ended_turn<P: Phases>(
    phases: &P,
    exchange: &Exchange<Serial<P>>,
    steps: u32,
    worker: &mut Worker<P>,
    world: P::World,
    mut left: Left<P::Parcel>,
) -> Result<Turn, AllocError>
    requires run { phases.now ≡ exchange.now.run.0 }
    requires at { IsWorkerAt P.rules exchange.now worker.old (Ended world left) }
    ensures shard { worker.new.shard ≡ worker.old.shard }
    ensures at { OnOk result (IsWorkerAt P.rules exchange.now worker.new worker.new.stage) }
    ensures port { IsPortOf (serial_plan P.rules) exchange.now worker.new.inbox.port }
{
    for _step in 0..steps {
        match keep_one(phases, exchange, worker, &world, &mut left)? {
            Took::One => {}
            Took::Waits => {
                worker.stage = Stage::Ended(world, left);
                return Ok(Turn::Waits);
            }
            Took::All => {
                worker.stage = Stage::Ended(world, left);
                return Ok(Turn::Done);
            }
        }
    }
    worker.stage = Stage::Ended(world, left);
    Ok(Turn::Moved)
}

/// Goes past heights without a chunk, up to so many, and opens the next chunk.
fn idle_turn<P: Phases, G: Gate>(
    alloc: Global,
    phases: &P,
    exchange: &Exchange<Serial<P>>,
    gate: &G,
    steps: u32,
    worker: &mut Worker<P>,
    world: P::World,
) -> Result<Turn, AllocError>
    requires run { phases.now ≡ exchange.now.run.0 }
    requires at { IsWorkerAt P.rules exchange.now worker.old (Idle world) }
    ensures shard { worker.new.shard ≡ worker.old.shard }
    ensures at { OnOk result (IsWorkerAt P.rules exchange.now worker.new worker.new.stage) }
    ensures port { IsPortOf (serial_plan P.rules) exchange.now worker.new.inbox.port }
{
    for _step in 0..steps {
        if worker.height >= phases.heights() {
            end_next(alloc, phases, exchange, worker, world)?;
            return Ok(Turn::Moved);
        }
        if phases.present(worker.shard, Height(worker.height + 1)) {
            open_next(alloc, phases, exchange, gate, worker, world)?;
            return Ok(Turn::Moved);
        }
        skip_next(phases, exchange, worker, &world);
    }
    worker.stage = Stage::Idle(world);
    Ok(Turn::Moved)
}

fn try_turn<P: Phases, G: Gate>(
    alloc: Global,
    phases: &P,
    exchange: &Exchange<Serial<P>>,
    gate: &G,
    steps: u32,
    worker: &mut Worker<P>,
) -> Result<Turn, AllocError>
    requires run { phases.now ≡ exchange.now.run.0 }
    requires sound { IsWorker P.rules exchange.now worker.old }
    ensures shard { worker.new.shard ≡ worker.old.shard }
    ensures at { OnOk result (IsWorkerAt P.rules exchange.now worker.new worker.new.stage) }
    ensures port { IsPortOf (serial_plan P.rules) exchange.now worker.new.inbox.port }
{
    match mem::replace(&mut worker.stage, Stage::Lost) {
        Stage::Idle(world) => idle_turn(alloc, phases, exchange, gate, steps, worker, world),
        Stage::Opened(working) => {
            opened_turn(alloc, phases, exchange, gate, steps, worker, working)
        }
        Stage::Sealed(world, lists) => { sealed_turn(phases, exchange, gate, worker, world, lists) }
        Stage::Ended(world, left) => ended_turn(phases, exchange, steps, worker, world, left),
        Stage::Lost => Err(AllocError),
    }
}

/// Makes the next steps of a worker, up to so many. Where memory is wanting, or a source of a list or the shard at
/// the end of a link without room has abandoned the run, the worker abandons it too.
pub(crate) fn make_turn<P: Phases, G: Gate>(
    alloc: Global,
    phases: &P,
    exchange: &Exchange<Serial<P>>,
    gate: &G,
    steps: u32,
    worker: &mut Worker<P>,
) -> Turn
    requires run { phases.now ≡ exchange.now.run.0 }
    requires sound { IsWorker P.rules exchange.now worker.old }
    ensures sound { IsWorker P.rules exchange.now worker.new }
    ensures shard { worker.new.shard ≡ worker.old.shard }
{
    match try_turn(alloc, phases, exchange, gate, steps, worker) {
        Ok(turn) => turn,
        Err(_) => {
            worker.stage = Stage::Lost;
            worker.inbox.port.abandon(exchange);
            Turn::Failed
        }
    }
}
