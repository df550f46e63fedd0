//! The reports of a run by shard and height.

ghost use Rattle.std.specs.Prelude.{◌≡◌, ◌++◌, ◌∷◌, [], IfOk, OnOk, Some};
ghost use Rattle.std.specs.Option.{option_copied};
ghost use Rattle.nr_overlap.specs.Outcome.{reports_to, reports_by_shard};
ghost use Rattle.nr_outcome.specs.Rows.{row_of, reports_in, AreRows, cell, cell_in};

use nr_bytes::List;
use nr_ids::{Height, ShardId};
use nr_overlap::Phases;
use std::alloc::{AllocError, Global};

/// Adds the report of a chunk.
fn push_report<R: Drop>(
    alloc: Global,
    row: &mut Vec<Option<Box<R>>>,
    report: R,
) -> Result<(), AllocError>
    ensures { OnOk result (reports_in row.new.items ≡ reports_in row.old.items ++ Some report ∷ []) }
{
    row.push(Some(Box::new(alloc, report)?))?;
    Ok(())
}

/// The reports of a shard in order of height, with a gap where it has no chunk.
fn row_of<P: Phases>(
    alloc: Global,
    phases: &P,
    shard: u32,
    reports: List<P::Report>,
) -> Result<Vec<Option<Box<P::Report>>>, AllocError>
    requires { reports ≡ reports_to (P.rules phases.now) shard (P.rules phases.now).heights }
    ensures { IfOk result (λ row. reports_in row.items ≡ row_of (P.rules phases.now) shard) }
{
    let mut row = Vec::new(alloc);
    let mut rest = reports.into_inner().into_iter();
    for below in 0..phases.heights() {
        if phases.present(ShardId(shard), Height(below + 1)) {
            match rest.next() {
                Some(report) => push_report(alloc, &mut row, report)?,
                None => unreachable!(),
            }
        } else {
            row.push(None)?;
        }
    }
    Ok(row)
}

/// The reports of all shards, by shard and height, with a gap where there is no chunk. A gap takes a few bytes.
pub(crate) fn rows_of<P: Phases>(
    alloc: Global,
    phases: &P,
    reports: List<List<P::Report>>,
) -> Result<Vec<Vec<Option<Box<P::Report>>>>, AllocError>
    requires { reports ≡ reports_by_shard (P.rules phases.now) }
    ensures { IfOk result (λ rows. AreRows (P.rules phases.now) rows.items) }
{
    let mut rows = Vec::new(alloc);
    let mut rest = reports.into_inner().into_iter();
    for shard in 0..phases.shards() {
        match rest.next() {
            Some(reports) => rows.push(row_of(alloc, phases, shard, reports)?)?,
            None => unreachable!(),
        }
    }
    Ok(rows)
}

fn cell_in<R>(row: &[Option<Box<R>>], below: u64) -> Option<&R>
    ensures { (rows : _) → rows.items ≡ row.now → option_copied result ≡ cell_in (Some rows) below }
{
    match row.get(below as usize) {
        Some(Some(report)) => Some(&**report),
        _ => None,
    }
}

/// The report of a shard at the height above a number.
pub(crate) fn cell<R>(rows: &[Vec<Option<Box<R>>>], shard: u32, below: u64) -> Option<&R>
    ensures { option_copied result ≡ cell rows.now shard below }
{
    match rows.get(shard as usize) {
        Some(row) => cell_in(row, below),
        None => None,
    }
}
