//! What stands in the parts of a core.

ghost use Rattle.std.specs.Prelude.{◌≡◌};
ghost use Rattle.std.specs.Option.{option_copied};
ghost use Rattle.nr_overlap.specs.Held.{held_world, held_working, row_entry, row_report, row_slot, entry};

use crate::shards::{Held, Row};

pub(crate) fn world_of<W, K>(held: &Held<W, K>) -> Option<&W>
    ensures { option_copied result ≡ held_world held.now }
{
    match held {
        Held::World(world) => Some(world),
        Held::Working(_) => None,
        Held::Nothing => None,
    }
}

pub(crate) fn working_of<W, K>(held: &Held<W, K>) -> Option<&K>
    ensures { option_copied result ≡ held_working held.now }
{
    match held {
        Held::World(_) => None,
        Held::Working(working) => Some(working),
        Held::Nothing => None,
    }
}

fn report_in<L, R>(entry: &Option<Box<Row<L, R>>>) -> Option<&R>
    ensures { option_copied result ≡ row_report entry.now }
{
    match entry {
        Some(row) => Some(&row.report),
        None => None,
    }
}

fn list_in<L, R>(entry: &Option<Box<Row<L, R>>>, dest: usize) -> Option<&L>
    ensures { option_copied result ≡ row_slot entry.now dest }
{
    match entry {
        Some(row) => match row.lists.get(dest) {
            Some(Some(list)) => Some(list),
            _ => None,
        },
        None => None,
    }
}

fn report_of<L, R>(row: &[Option<Box<Row<L, R>>>], height: usize) -> Option<&R>
    ensures { option_copied result ≡ row_report (row_entry row.now height) }
{
    match row.get(height) {
        Some(entry) => report_in(entry),
        None => None,
    }
}

pub(crate) fn slot_of<L, R>(
    row: &[Option<Box<Row<L, R>>>],
    height: usize,
    dest: usize,
) -> Option<&L>
    ensures { option_copied result ≡ row_slot (row_entry row.now height) dest }
{
    match row.get(height) {
        Some(entry) => list_in(entry, dest),
        None => None,
    }
}

/// The report of a chunk, of any shard at any height.
pub(crate) fn report_in_rows<L, R>(
    rows: &[Vec<Option<Box<Row<L, R>>>>],
    shard: usize,
    height: usize,
) -> Option<&R>
    ensures { option_copied result ≡ row_report (entry rows.now shard height) }
{
    match rows.get(shard) {
        Some(row) => report_of(row, height),
        None => None,
    }
}
