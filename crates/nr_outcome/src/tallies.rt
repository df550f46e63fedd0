//! Sums of tallies: what parts of a run hold together.

ghost use Rattle.std.specs.Prelude.{◌≡◌, OkIff, SomeIff};
ghost use Rattle.std.specs.Option.{option_copied};
ghost use Rattle.nr_places.specs.Totals.{nothing, plus, plus_counts, report_tally};
ghost use Rattle.nr_outcome.specs.Fitting.{CountsFit, Fits};

use nr_chunk::{Tally, tally_report};
use nr_records::ChunkResult;
use std::alloc::AllocError;

/// The tally of nothing.
pub fn no_tally() -> Tally
    ensures { result ≡ nothing }
{
    Tally {
        accounts: 0,
        receipts: 0,
        burnt: 0,
        places: [0, 0, 0, 0, 0],
    }
}

fn add_counts(a: [u64; 5], b: [u64; 5]) -> Option<[u64; 5]>
    ensures { SomeIff result (CountsFit (plus_counts a b)) (plus_counts a b) }
{
    let [a0, a1, a2, a3, a4] = a;
    let [b0, b1, b2, b3, b4] = b;
    let routed = a0.checked_add(b0)?;
    let executed = a1.checked_add(b1)?;
    let postponed = a2.checked_add(b2)?;
    let delayed = a3.checked_add(b3)?;
    let flying = a4.checked_add(b4)?;
    Some([routed, executed, postponed, delayed, flying])
}

/// The sum of two tallies: `None` exactly where one of its numbers doesn't fit.
pub fn add_tallies(a: Tally, b: Tally) -> Option<Tally>
    ensures { SomeIff result (Fits (plus a b)) (plus a b) }
{
    let counts = a.places;
    let more = b.places;
    let accounts = a.accounts.checked_add(b.accounts)?;
    let receipts = a.receipts.checked_add(b.receipts)?;
    let burnt = a.burnt.checked_add(b.burnt)?;
    let places = add_counts(counts, more)?;
    Some(Tally {
        accounts,
        receipts,
        burnt,
        places,
    })
}

/// The sum of two tallies, where one that doesn't fit counts as want of memory.
///
/// # Errors
///
/// Exactly where one of its numbers doesn't fit.
pub fn added(a: Tally, b: Tally) -> Result<Tally, AllocError>
    ensures { OkIff result (Fits (plus a b)) (plus a b) }
{
    add_tallies(a, b).ok_or(AllocError)
}

/// A tally with what a chunk burnt, routed and executed, if the chunk is there.
///
/// # Errors
///
/// Exactly where one of the numbers doesn't fit. It counts as want of memory.
#[tactic(auto, using(crate::proofs::Steps::no_room))]
pub fn add_report(sum: Tally, report: Option<&ChunkResult>) -> Result<Tally, AllocError>
    ensures { let all = plus sum (report_tally (option_copied report.entry)) in OkIff result (Fits all) all }
{
    match report {
        Some(report) => match tally_report(report) {
            Some(more) => added(sum, more),
            None => Err(AllocError),
        },
        None => added(sum, no_tally()),
    }
}
