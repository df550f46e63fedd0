//! A core whose run is over, taken apart.

ghost use Rattle.std.specs.Prelude.{◌≡◌, ◌+◌, ◌<◌, ◌≤◌, ◌++◌, ℕ, None, Some, IfOk, IsSome, OnOk, length};
ghost use Rattle.std.specs.Option.{option_to_list};
ghost use Rattle.nr_overlap.specs.Held.{cell, held_world, row_entry, row_report, row_slot};
ghost use Rattle.nr_overlap.specs.Outcome.{HoldsLast, HoldsRows, IsLastRow, last_worlds, left_by_height};
ghost use Rattle.nr_overlap.specs.Outcome.{left_by_source, left_list, lists_left, reports_by_shard, reports_to, sent};

use crate::phases::Phases;
use crate::shards::{Held, Row};
use crate::steps::take_cell;
use nr_bytes::List;
use nr_ids::{Height, ShardId};
use std::alloc::{AllocError, Global};

/// A list with its source, its height and its destination.
type Sent<L> = (ShardId, Height, ShardId, L);

/// Adds a list, if there is one.
fn add_sent<L: Drop>(
    all: &mut Vec<Sent<L>>,
    source: ShardId,
    height: Height,
    dest: ShardId,
    list: Option<L>,
) -> Result<(), AllocError>
    ensures { OnOk result (all.new.items ≡ all.old.items ++ sent source.0 height.0 dest.0 list) }
{
    if let Some(list) = list {
        all.push((source, height, dest, list))?;
    }
    Ok(())
}

/// How many shards may have a list in these slots.
fn among<L>(shards: u32, lists: &[Option<L>]) -> u32
    ensures within { result ≤ shards }
    ensures past { (d : ℕ) → result ≤ d → d < shards → cell lists.now d ≡ None }
{
    match u32::try_from(lists.len()) {
        Ok(slots) => slots.min(shards),
        Err(_) => shards,
    }
}

/// Adds the lists of a chunk that no chunk takes, in order of destination.
fn add_lists<P: Phases>(
    phases: &P,
    source: u32,
    height: u64,
    lists: Vec<Option<P::Parcel>>,
    all: &mut Vec<Sent<P::Parcel>>,
) -> Result<(), AllocError>
    requires { (d : ℕ) → d < (P.rules phases.now).shards → cell lists.items d
        ≡ left_list (P.rules phases.now) source height d }
    ensures { OnOk result (all.new.items ≡ all.old.items ++ left_by_height (P.rules phases.now) source height) }
{
    let mut lists = lists;
    for dest in 0..among(phases.shards(), &lists) {
        let list = take_cell(&mut lists, dest as usize);
        add_sent(all, ShardId(source), Height(height), ShardId(dest), list)?;
    }
    Ok(())
}

/// Adds the report of a chunk, if there is one, and its lists that no chunk takes.
fn add_entry<P: Phases>(
    phases: &P,
    source: u32,
    height: u64,
    entry: Option<Box<Row<P::Parcel, P::Report>>>,
    reports: &mut Vec<P::Report>,
    all: &mut Vec<Sent<P::Parcel>>,
) -> Result<(), AllocError>
    requires lists { (d : ℕ) → d < (P.rules phases.now).shards → row_slot entry d
        ≡ left_list (P.rules phases.now) source height d }
    ensures report { OnOk result (reports.new.items ≡ reports.old.items ++ option_to_list (row_report entry)) }
    ensures added { OnOk result (all.new.items ≡ all.old.items ++ left_by_height (P.rules phases.now) source height) }
{
    match entry {
        Some(sealed) => {
            let Row { report, lists } = Box::into_inner(sealed);
            add_lists(phases, source, height, lists, all)?;
            reports.push(report)?;
            Ok(())
        }
        None => Ok(()),
    }
}

/// Takes the entry of a height out of a row.
fn take_entry<L: Drop, R: Drop>(
    row: &mut Vec<Option<Box<Row<L, R>>>>,
    height: usize,
) -> Option<Box<Row<L, R>>>
    requires { height < length row.old.items }
    ensures entry { result ≡ row_entry row.old.items height }
    ensures others { (h : ℕ) → (h ≡ height → ⊥) → row_entry row.new.items h ≡ row_entry row.old.items h }
    ensures long { length row.new.items ≡ length row.old.items }
{
    row[height].take()
}

/// The reports of a source, in order of height. Adds its lists that no chunk takes, by height and then destination.
fn close_row<P: Phases>(
    alloc: Global,
    phases: &P,
    source: u32,
    row: Vec<Option<Box<Row<P::Parcel, P::Report>>>>,
    all: &mut Vec<Sent<P::Parcel>>,
) -> Result<List<P::Report>, AllocError>
    requires row { IsLastRow (P.rules phases.now) source row.items }
    ensures reports { IfOk result (λ reports. reports
        ≡ reports_to (P.rules phases.now) source (P.rules phases.now).heights) }
    ensures left { OnOk result (all.new.items ≡ all.old.items ++ left_by_source (P.rules phases.now) source) }
{
    let mut row = row;
    let mut reports = Vec::new(alloc);
    for below in 0..phases.heights() {
        let entry = take_entry(&mut row, below as usize + 1);
        add_entry(phases, source, below + 1, entry, &mut reports, all)?;
    }
    Ok(List::of(reports))
}

/// The reports of all sources, in order of number. Adds the lists that no chunk takes, by source, height and
/// destination.
pub(crate) fn close_rows<P: Phases>(
    alloc: Global,
    phases: &P,
    rows: Vec<Vec<Option<Box<Row<P::Parcel, P::Report>>>>>,
    all: &mut Vec<Sent<P::Parcel>>,
) -> Result<List<List<P::Report>>, AllocError>
    requires count { length rows.items ≡ (P.rules phases.now).shards }
    requires rows { HoldsRows (P.rules phases.now) rows.items }
    ensures reports { IfOk result (λ reports. reports ≡ reports_by_shard (P.rules phases.now)) }
    ensures left { OnOk result (all.new.items ≡ all.old.items ++ lists_left (P.rules phases.now)) }
{
    let mut reports = Vec::new(alloc);
    let mut rest = rows.into_iter();
    for source in 0..phases.shards() {
        match rest.next() {
            Some(row) => reports.push(close_row(alloc, phases, source, row, all)?)?,
            None => unreachable!(),
        }
    }
    Ok(List::of(reports))
}

/// The world of a shard that is in no chunk.
fn world_in<W: Drop, K: Drop>(held: Held<W, K>) -> W
    requires { IsSome (held_world held) }
    ensures { held_world held ≡ Some result }
{
    match held {
        Held::World(world) => world,
        _ => unreachable!(),
    }
}

/// The last world of each shard, in order of number.
pub(crate) fn close_held<P: Phases>(
    alloc: Global,
    phases: &P,
    held: Vec<Held<P::World, P::Working>>,
) -> Result<List<P::World>, AllocError>
    requires count { length held.items ≡ (P.rules phases.now).shards }
    requires held { HoldsLast (P.rules phases.now) held.items }
    ensures { IfOk result (λ worlds. worlds ≡ last_worlds (P.rules phases.now)) }
{
    let mut worlds = Vec::new(alloc);
    let mut rest = held.into_iter();
    for _shard in 0..phases.shards() {
        match rest.next() {
            Some(held) => worlds.push(world_in(held))?,
            None => unreachable!(),
        }
    }
    Ok(List::of(worlds))
}
