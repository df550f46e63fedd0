//! What holds of every plan.

ghost use Rattle.std.specs.Prelude.{◌≡◌, ◌∷◌, [], ℕ, List, Option, Some};
ghost use Rattle.nr_shell.specs.Plans.{AreTold, IsEnd, LeadsBy, Plan, with_bytes};

/// Where the shelf tells each file asked for on the way to an end, a plan asks for no other files and comes to no
/// other end: so its answer, or its refusal, is the only one that is right. It does nothing when it runs.
pub fn plan_law<A, E>()
    ensures { (held : List ℕ → Option (List ℕ)) (names others : List (List ℕ)) (p one two : Plan A E)
        → AreTold held names → IsEnd one → IsEnd two → LeadsBy held names p one → LeadsBy held others p two
        → (others ≡ names) × (two ≡ one) }
{}

/// Where the shelf tells the file that a plan asks for first, what stands behind this file is the plan to which its
/// bytes are given. It does nothing when it runs.
pub fn with_bytes_law<A, E>()
    ensures { (held : List ℕ → Option (List ℕ)) (name bytes : List ℕ) (p q : Plan A E)
        → held name ≡ Some bytes → LeadsBy held (name ∷ []) p q → q ≡ with_bytes bytes p }
{}
