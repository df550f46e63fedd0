//! What a cut keeps. Each function here does nothing when it runs: its contract is the law.

ghost use Rattle.std.specs.Prelude.{ℕ, Bool, List, not};
ghost use Rattle.nr_config.specs.Config.{Config};
ghost use Rattle.nr_cut.specs.Cut.{HasOnly};
ghost use Rattle.nr_cut.specs.Laws.{CanCut, JoinsDerived, KeepsLists, KeepsWorlds, PartsDerived};
ghost use Rattle.nr_records.specs.declared.receipt.Receipt.{Receipt};
ghost use Rattle.nr_state.specs.Keyed.{IsKeyed};
ghost use Rattle.nr_state.specs.World.{World};

/// What the worlds of shards keep where they are cut by other boundaries.
pub fn world_laws()
    ensures { (c : Config) (old new : List (List ℕ)) (ws : List World) → CanCut c old ws → KeepsWorlds c old new ws }
{}

/// What lists keep that are carried to the shards under other boundaries.
pub fn list_laws()
    ensures { (new : List (List ℕ)) (lists : List (List Receipt)) → KeepsLists new lists }
{}

/// What is derived from postponed receipts: who waits for a datum, and how many inputs a receipt
/// lacks.
pub fn derived_laws()
    // In the part of a world it is that part of what is derived in the world.
    ensures part { (test : List ℕ → Bool) (w : World) → IsKeyed w → PartsDerived test w }
    // In worlds side by side that share no owner it is what is derived in each.
    ensures beside { (test : List ℕ → Bool) (a b : World) → HasOnly test a → HasOnly (λ id. not (test id)) b
        → IsKeyed a → IsKeyed b → JoinsDerived a b }
{}
