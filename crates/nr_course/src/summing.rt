//! What a run of two legs has in all.

ghost use Rattle.std.specs.Prelude.{◌≡◌, IfOk};
ghost use Rattle.nr_chunk.specs.Chain.{rules_of};
ghost use Rattle.nr_chunk.specs.Runs.{chain_in};
ghost use Rattle.nr_course.specs.Totals.{past_in};
ghost use Rattle.nr_outcome.specs.Totals.{totals_of};
ghost use Rattle.nr_overlap.specs.Run.{ending};
ghost use Rattle.nr_places.specs.Totals.{plus, tally_at};

use nr_chunk::{ChunkStore, Tally};
use nr_outcome::{Outcome, added};
use nr_report::Totals;
use nr_state::Caller;
use std::alloc::{AllocError, Global};

/// What is past of a leg that is over.
pub(crate) fn past_in(tally: Tally) -> Tally
    ensures { result ≡ past_in tally }
{
    let [routed, executed, _, _, _] = tally.places;
    Tally {
        accounts: 0,
        receipts: 0,
        burnt: tally.burnt,
        places: [routed, executed, 0, 0, 0],
    }
}

/// The totals of a run whose last leg came to this. The earlier one started with the supply, and `past` is what is past
/// of it; of a run of one leg that is nothing.
///
/// # Errors
///
/// Where memory runs out. A sum that doesn't fit its number counts as that, and so do the counts of a report.
pub fn totals_over<C: Caller<ChunkStore>>(
    alloc: Global,
    outcome: &Outcome<C>,
    supply: u128,
    past: Tally,
) -> Result<Totals, AllocError>
    ensures { let x = chain_in outcome.now.chain in IfOk result (λ totals. totals
        ≡ totals_of supply (plus past (tally_at x (ending (rules_of x))))) }
{
    let last = outcome.tally(alloc)?;
    let all = added(past, last)?;
    let places = all.places;
    Ok(Totals {
        supply,
        accounts: all.accounts,
        receipts: all.receipts,
        burnt: all.burnt,
        places,
    })
}
