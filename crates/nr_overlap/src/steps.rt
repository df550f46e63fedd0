//! The steps of a shard, each where it is enabled.

ghost use Rattle.std.specs.Prelude.{◌≡◌, ◌<◌, ◌+◌, ◌≤◌, ℕ, IfOk, OnOk, length, map, Option};
ghost use Rattle.std.specs.Prelude.{Some, None};
ghost use Rattle.nr_overlap.specs.Held.{IsSerial, Happens, Opens, Takes, Seals, opened_held, took_held};
ghost use Rattle.nr_overlap.specs.Held.{sealed_held, IsRowFrom, cell, row_entry, row_slot, row_report};
ghost use Rattle.nr_overlap.specs.declared.event.Event.TheVariants.{OpenChunk, TakeList, SealChunk, PublishLists};
ghost use Rattle.nr_overlap.specs.Inside.{IsInside};
ghost use Rattle.nr_overlap.specs.Moves.{refusal};

use crate::due::due_list;
use crate::event::Event;
use crate::phases::Phases;
use crate::position::{Position, Stage};
use crate::shards::{Held, Row, Shards};
use nr_ids::{Height, ShardId};
use std::alloc::{AllocError, Global};
use std::mem;

// ---- what one shard holds

/// Opens the chunk of a shard that holds its world.
fn open_held<P: Phases>(
    alloc: Global,
    phases: &P,
    held: &mut Held<P::World, P::Working>,
    shard: ShardId,
    height: Height,
) -> Result<(), AllocError>
    requires { Opens (P.can_open phases.now) shard.0 height.0 held.old }
    ensures { OnOk result (held.new ≡ opened_held (P.rules phases.now) shard.0 height.0 held.old) }
{
    match mem::replace(held, Held::Nothing) {
        Held::World(world) => {
            *held = Held::Working(phases.open_chunk(alloc, shard, height, world)?);
            Ok(())
        }
        _ => unreachable!(),
    }
}

/// Gives a list to a shard that is open.
fn give_list<P: Phases>(
    alloc: Global,
    phases: &P,
    held: &mut Held<P::World, P::Working>,
    list: Option<P::Parcel>,
) -> Result<(), AllocError>
    requires { Takes (P.can_take phases.now) held.old list }
    ensures { OnOk result (held.new ≡ took_held (P.rules phases.now) held.old list) }
{
    match (held, list) {
        (Held::Working(working), Some(list)) => phases.take_list(alloc, working, list),
        _ => unreachable!(),
    }
}

/// A slot for each list.
fn slots_of<L: Drop>(alloc: Global, lists: Vec<L>) -> Result<Vec<Option<L>>, AllocError>
    ensures { IfOk result (λ row. row.items ≡ map (λ l. Some l) lists.items) }
{
    lists.into_iter().map(|list| Some(list)).collect(alloc)
}

/// Seals the chunk of a shard that is open.
fn seal_held<P: Phases>(
    alloc: Global,
    phases: &P,
    held: &mut Held<P::World, P::Working>,
) -> Result<Box<Row<P::Parcel, P::Report>>, AllocError>
    requires { Seals (P.can_seal phases.now) held.old }
    ensures held { OnOk result (held.new ≡ sealed_held (P.rules phases.now) held.old) }
    ensures row { IfOk result (λ row. IsRowFrom (P.rules phases.now) held.old row) }
{
    match mem::replace(held, Held::Nothing) {
        Held::Working(working) => {
            let (world, report, lists) = phases.seal_chunk(alloc, working)?;
            let lists = slots_of(alloc, lists.into_inner())?;
            let row = Box::new(alloc, Row { report, lists })?;
            *held = Held::World(world);
            Ok(row)
        }
        _ => unreachable!(),
    }
}

// ---- what one shard has sealed

/// How many slots stand up to the last list.
fn used<L>(lists: &[Option<L>]) -> usize
    ensures past { (d : ℕ) → result ≤ d → cell lists.now d ≡ None }
    ensures within { result ≤ length lists.now }
{
    let mut used = lists.len();
    while used > 0 && lists[used - 1].is_none() {
        used -= 1;
    }
    used
}

/// Gives up the slots behind the last list.
#[tactic(auto, using(crate::proofs::Cells::cell_taken))]
fn trim<L: Drop>(alloc: Global, lists: &mut Vec<Option<L>>)
    ensures { (d : ℕ) → cell lists.new.items d ≡ cell lists.old.items d }
{
    let used = used(lists);
    if used == 0 {
        *lists = Vec::new(alloc);
    } else {
        lists.truncate(used);
    }
}

/// Takes the list out of a slot, if it is there.
pub(crate) fn take_cell<L: Drop>(lists: &mut Vec<Option<L>>, dest: usize) -> Option<L>
    ensures list { result ≡ cell lists.old.items dest }
    ensures gone { cell lists.new.items dest ≡ None }
    ensures others { (d : ℕ) → (d ≡ dest → ⊥) → cell lists.new.items d ≡ cell lists.old.items d }
{
    match lists.get_mut(dest) {
        Some(list) => list.take(),
        None => None,
    }
}

/// Takes a list out of a sealed chunk.
fn take_from<L: Drop, R: Drop>(
    alloc: Global,
    entry: &mut Option<Box<Row<L, R>>>,
    dest: usize,
) -> Option<L>
    ensures list { result ≡ row_slot entry.old dest }
    ensures gone { row_slot entry.new dest ≡ None }
    ensures others { (d : ℕ) → (d ≡ dest → ⊥) → row_slot entry.new d ≡ row_slot entry.old d }
    ensures report { row_report entry.new ≡ row_report entry.old }
{
    match entry {
        Some(sealed) => {
            let list = take_cell(&mut sealed.lists, dest);
            trim(alloc, &mut sealed.lists);
            list
        }
        None => None,
    }
}

/// Takes the list out of a slot.
fn take_slot<L: Drop, R: Drop>(
    alloc: Global,
    row: &mut Vec<Option<Box<Row<L, R>>>>,
    height: usize,
    dest: usize,
) -> Option<L>
    requires { height < length row.old.items }
    ensures list { result ≡ row_slot (row_entry row.old.items height) dest }
    ensures gone { row_slot (row_entry row.new.items height) dest ≡ None }
    ensures others { (h d : ℕ) → (h ≡ height → d ≡ dest → ⊥) → row_slot (row_entry row.new.items h) d
        ≡ row_slot (row_entry row.old.items h) d }
    ensures reports { (h : ℕ) → row_report (row_entry row.new.items h) ≡ row_report (row_entry row.old.items h) }
    ensures long { length row.new.items ≡ length row.old.items }
{
    take_from(alloc, &mut row[height], dest)
}

// ---- the steps

fn open_at<P: Phases>(
    alloc: Global,
    phases: &P,
    shards: &mut Shards<P::World, P::Working, P::Parcel, P::Report>,
    shard: ShardId,
) -> Result<(), AllocError>
    requires run { P.is_run phases.now }
    requires serial { IsSerial (P.rules phases.now) shards.old }
    requires inside { IsInside (P.rules phases.now).shards (OpenChunk shard) }
    requires enabled { refusal (P.rules phases.now) shards.old.positions.items (OpenChunk shard) ≡ None }
    ensures { Happens (P.rules phases.now) (OpenChunk shard) shards.old result shards.new }
{
    let place = shard.0 as usize;
    let _heights = phases.heights();
    let number = shards.positions[place].number;
    let due = due_list(alloc, phases, shard, number)?;
    open_held(
        alloc,
        phases,
        &mut shards.held[place],
        shard,
        Height(number + 1),
    )?;
    shards.dues[place] = due;
    shards.positions[place] = Position {
        number,
        stage: Stage::Opened,
        taken: 0,
    };
    Ok(())
}

fn take_at<P: Phases>(
    alloc: Global,
    phases: &P,
    shards: &mut Shards<P::World, P::Working, P::Parcel, P::Report>,
    dest: ShardId,
    source: ShardId,
    height: Height,
) -> Result<(), AllocError>
    requires run { P.is_run phases.now }
    requires serial { IsSerial (P.rules phases.now) shards.old }
    requires inside { IsInside (P.rules phases.now).shards (TakeList dest source height) }
    requires enabled { refusal (P.rules phases.now) shards.old.positions.items (TakeList dest source height) ≡ None }
    ensures { Happens (P.rules phases.now) (TakeList dest source height) shards.old result shards.new }
{
    let place = dest.0 as usize;
    let list = take_slot(
        alloc,
        &mut shards.rows[source.0 as usize],
        height.0 as usize,
        place,
    );
    give_list(alloc, phases, &mut shards.held[place], list)?;
    let taken = shards.positions[place].taken + 1;
    shards.positions[place].taken = taken;
    Ok(())
}

fn seal_at<P: Phases>(
    alloc: Global,
    phases: &P,
    shards: &mut Shards<P::World, P::Working, P::Parcel, P::Report>,
    shard: ShardId,
) -> Result<(), AllocError>
    requires run { P.is_run phases.now }
    requires serial { IsSerial (P.rules phases.now) shards.old }
    requires inside { IsInside (P.rules phases.now).shards (SealChunk shard) }
    requires enabled { refusal (P.rules phases.now) shards.old.positions.items (SealChunk shard) ≡ None }
    ensures { Happens (P.rules phases.now) (SealChunk shard) shards.old result shards.new }
{
    let place = shard.0 as usize;
    let number = shards.positions[place].number;
    let row = seal_held(alloc, phases, &mut shards.held[place])?;
    shards.rows[place].push(Some(row))?;
    shards.positions[place] = Position {
        number,
        stage: Stage::Sealed,
        taken: 0,
    };
    Ok(())
}

fn publish_at<P: Phases>(
    phases: &P,
    shards: &mut Shards<P::World, P::Working, P::Parcel, P::Report>,
    shard: ShardId,
) -> Result<(), AllocError>
    requires run { P.is_run phases.now }
    requires serial { IsSerial (P.rules phases.now) shards.old }
    requires inside { IsInside (P.rules phases.now).shards (PublishLists shard) }
    requires enabled { refusal (P.rules phases.now) shards.old.positions.items (PublishLists shard) ≡ None }
    ensures { Happens (P.rules phases.now) (PublishLists shard) shards.old result shards.new }
{
    let place = shard.0 as usize;
    let _heights = phases.heights();
    let position = shards.positions[place];
    let next = Position {
        number: position.number + 1,
        stage: Stage::Idle,
        taken: 0,
    };
    if let Stage::Idle = position.stage {
        shards.rows[place].push(None)?;
        shards.positions[place] = next;
        return Ok(());
    }
    shards.positions[place] = next;
    Ok(())
}

/// Makes a step that is enabled.
pub(crate) fn happen<P: Phases>(
    alloc: Global,
    phases: &P,
    shards: &mut Shards<P::World, P::Working, P::Parcel, P::Report>,
    event: Event,
) -> Result<(), AllocError>
    requires run { P.is_run phases.now }
    requires serial { IsSerial (P.rules phases.now) shards.old }
    requires inside { IsInside (P.rules phases.now).shards event }
    requires enabled { refusal (P.rules phases.now) shards.old.positions.items event ≡ None }
    ensures { Happens (P.rules phases.now) event shards.old result shards.new }
{
    match event {
        Event::OpenChunk(shard) => open_at(alloc, phases, shards, shard),
        Event::TakeList(dest, source, height) => {
            take_at(alloc, phases, shards, dest, source, height)
        }
        Event::SealChunk(shard) => seal_at(alloc, phases, shards, shard),
        Event::PublishLists(shard) => publish_at(phases, shards, shard),
    }
}
