//! What holds of every command.

ghost use Rattle.std.specs.Prelude.{◌≡◌, ◌++◌, ℕ, List, Option};
ghost use Rattle.nr_shell.specs.Plans.{Answer, LeadsBy, Plan};
ghost use Rattle.nr_audit.specs.Command.{Command};
ghost use Rattle.nr_audit.specs.Plans.{files_of, plan};
ghost use Rattle.nr_audit.specs.declared.status.Status.{Status};

/// Whatever its plan comes to, a command asks for its own files alone, in their order, and once for each; where it
/// comes to an answer, it has asked for all of them. Words that are no command ask for none. It does nothing when it
/// runs.
pub fn asked_law()
    ensures front { (held : List ℕ → Option (List ℕ)) (asked : Option Command) (names : List (List ℕ))
        (q : Plan (List ℕ) Status) → LeadsBy held names (plan asked) q
        → (rest : List (List ℕ)) × (files_of asked ≡ names ++ rest) }
    ensures all { (held : List ℕ → Option (List ℕ)) (asked : Option Command) (names : List (List ℕ)) (text : List ℕ)
        → LeadsBy held names (plan asked) (Answer text) → names ≡ files_of asked }
{}
