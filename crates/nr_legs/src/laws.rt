//! What holds of a run that goes on under other boundaries.

ghost use Rattle.std.specs.Prelude.{ℕ, List};
ghost use Rattle.nr_apart.specs.Apart.{StartsApart};
ghost use Rattle.nr_chunk.specs.Chain.{Chain, IsChain};
ghost use Rattle.nr_legs.specs.Legs.{CanGoOn, EndsWhole, GoesOn, HoldsAcross, LeavesLast, cut_start};
ghost use Rattle.nr_state.specs.Local.{IsLocal};

/// The cut of a chain's end is a start, and at every moment of what follows tokens and receipts add up to what the
/// chain itself started with. It does nothing when it runs.
pub fn leg_laws()
    ensures start { (x : Chain) → IsChain x → CanGoOn x → (new : List (List ℕ)) → GoesOn x new }
    // What a closed core leaves is what the cut routes anew.
    ensures left { (x : Chain) → IsChain x → CanGoOn x → LeavesLast x }
    ensures across { (x : Chain) → IsChain x → CanGoOn x → HoldsAcross x }
{}

/// Where each shard starts with what lives in it and the last block has each chunk, the chain can go on, and what
/// follows starts so too. It does nothing when it runs.
pub fn going_on_laws()
    // Where calls look at nothing but the current account.
    ensures can { (x : Chain) → IsChain x → IsLocal x.call → StartsApart x.start → EndsWhole x → CanGoOn x }
    ensures starts { (x : Chain) (new : List (List ℕ)) → StartsApart (cut_start x new) }
{}
