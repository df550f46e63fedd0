//! What holds of every command.

ghost use Rattle.std.specs.Prelude.{◌≡◌, ◌↔◌, ◌++◌, ℕ, List, Ok, Option};
ghost use Rattle.nr_wasmtypes.specs.declared.module.FuncType.{FuncType};
ghost use Rattle.nr_wasmtypes.specs.declared.module.Import.{Import};
ghost use Rattle.nr_wasmtypes.specs.declared.module.Module.{Module};
ghost use Rattle.nr_wasmvalid.specs.Modules.{IsValid};
ghost use Rattle.nr_wasmvalid.specs.Parts.{import_asks, outcome};
ghost use Rattle.nr_wasmexec.specs.Functions.{func_at};
ghost use Rattle.nr_wasmexec.specs.Making.{is_method as may_run, program_of};
ghost use Rattle.nr_shell.specs.Plans.{Answer, LeadsBy, Plan};
ghost use Rattle.nr_module.specs.Command.{Command};
ghost use Rattle.nr_module.specs.Listing.{is_method, offer_of};
ghost use Rattle.nr_module.specs.declared.offer.Offer.TheVariants.{Good};
ghost use Rattle.nr_module.specs.Plans.{Due, files_of, plan};
ghost use Rattle.nr_module.specs.declared.status.Status.{Status};

/// Whatever its plan comes to, a command asks for its own files alone, in their order, and once for each; where it
/// comes to an answer, it has asked for all of them. Words that are no command ask for none. It does nothing when it
/// runs.
pub fn asked_law()
    ensures front { (held : List ℕ → Option (List ℕ)) (asked : Option Command) (names : List (List ℕ))
        (q : Plan Due Status) → LeadsBy held names (plan asked) q → (rest : List (List ℕ))
        × (files_of asked ≡ names ++ rest) }
    ensures all { (held : List ℕ → Option (List ℕ)) (asked : Option Command) (names : List (List ℕ)) (due : Due)
        → LeadsBy held names (plan asked) (Answer due) → names ≡ files_of asked }
{}

/// What a listing says is what validity asks and what a run takes. It does nothing when it runs.
pub fn listing_law()
    // An import is good exactly where a module may have it.
    ensures imports { (types : List FuncType) (n : ℕ) (i : Import)
        → (offer_of types i i.kind ≡ Good) ↔ (outcome (import_asks types n i) ≡ Ok tt) }
    // A function of a valid module is a method exactly where it may be run.
    ensures methods { (pages : ℕ) (m : Module) (k : ℕ) → IsValid pages m
        → is_method m k ≡ may_run (func_at (program_of m) k) }
{}
