//! What holds of every command.

ghost use Rattle.std.specs.Prelude.{◌≡◌, ◌++◌, ℕ, List, Option};
ghost use Rattle.nr_files.specs.Due.{Output};
ghost use Rattle.nr_files.specs.declared.status.Status.{Status};
ghost use Rattle.nr_shell.specs.Plans.{Answer, LeadsBy, Plan};
ghost use Rattle.nr_jsonrun.specs.Plans.{files_of, plan};

/// Whatever its plan comes to, a command asks for its own files alone, in their order, and once for each; where it
/// comes to an answer, it has asked for all of them. It does nothing when it runs.
pub fn asked_law()
    ensures front { (held : List ℕ → Option (List ℕ)) (words names : List (List ℕ)) (q : Plan Output Status)
        → LeadsBy held names (plan words) q → (rest : List (List ℕ)) × (files_of words ≡ names ++ rest) }
    ensures all { (held : List ℕ → Option (List ℕ)) (words names : List (List ℕ)) (o : Output)
        → LeadsBy held names (plan words) (Answer o) → names ≡ files_of words }
{}
