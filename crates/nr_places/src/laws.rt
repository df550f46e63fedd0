//! What holds of the receipts of every chunk of a run, and at every moment of it.

ghost use Rattle.std.specs.Prelude.{◌≡◌, ℕ};
ghost use Rattle.nr_blocks.specs.declared.genesis.Genesis.{Genesis};
ghost use Rattle.nr_chunk.specs.Chain.{Chain, IsChain, rules_of};
ghost use Rattle.nr_chunk.specs.Start.{genesis_start};
ghost use Rattle.nr_overlap.specs.Balance.{IsKeptBy};
ghost use Rattle.nr_places.specs.Places.{FreesPostponed, places, start_receipts};
ghost use Rattle.nr_places.specs.Replay.{HoldsAlways, HoldsAtEnd, HoldsWhereReached};
ghost use Rattle.nr_records.specs.declared.receipt.Receipt.{Receipt};

/// The chunks of a run keep receipts: whatever receipts have, as the count of one of them, was routed or was there
/// before, and is with those that were executed, that are postponed or delayed, or that are in flight. The start of a
/// genesis has no receipts. A receipt that a datum sets free, of another shard or its own, passes from the postponed
/// ones to those that were executed. It does nothing when it runs.
pub fn places_laws()
    ensures genesis { (f : Receipt → ℕ) (g : Genesis) → start_receipts f (genesis_start g) ≡ 0 }
    ensures places { (x : Chain) → IsChain x → (f : Receipt → ℕ) → IsKeptBy (rules_of x) (places x f) }
    ensures freed { (x : Chain) → IsChain x → FreesPostponed x }
{}

/// The replay theorem. Wherever a list of events leads from the opening, the worlds, working states, reports and lists
/// that the steps made by the phases alone are those of the serial run: each chunk that is sealed has its report, and
/// each list in flight is its list. Accounts, receipts and what was burnt add up to the tokens of the start; each
/// receipt that the start had or that was routed is executed, postponed, delayed or in flight, in one place; and the
/// tallies of what stands count these receipts. So it is at all positions that steps can reach, and at the end of the
/// run. It does nothing when it runs.
pub fn replay_law()
    ensures always { (x : Chain) → IsChain x → HoldsAlways x }
    ensures reached { (x : Chain) → IsChain x → HoldsWhereReached x }
    ensures over { (x : Chain) → IsChain x → HoldsAtEnd x }
{}
