//! What adds up in a run of small chunks.

ghost use Rattle.std.specs.Prelude.{ℕ};
ghost use Rattle.nr_overlap.specs.Balance.{AddsUp};
ghost use Rattle.nr_overlap_tests.specs.Amounts.{tokens, receipts};
ghost use Rattle.nr_overlap_tests.specs.Small.{rules_of};

use crate::small_chain::SmallChain;
use nr_overlap::Core;

/// At whatever heights and stages the shards stand: tokens add up to those of the first places, and each receipt
/// stands as often among those waiting, paid and in flight as it was sent. It does nothing when it runs.
pub fn everything_adds_up(core: &Core<SmallChain>)
    ensures tokens { AddsUp (rules_of core.now.phases) tokens core.now.positions }
    ensures receipts { (v : ℕ) → AddsUp (rules_of core.now.phases) (receipts v) core.now.positions }
{
    core.adds_up();
}
