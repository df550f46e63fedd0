//! What holds of the files that are made and shown.

ghost use Rattle.std.specs.Prelude.{◌≡◌, ◌++◌, ℕ, Bool, List, Option, Ok};
ghost use Rattle.nr_bytes.specs.Numbers.{IsBytes};
ghost use Rattle.nr_config.specs.Config.{Config};
ghost use Rattle.nr_files.specs.Due.{Output, Bytes, IsWritten, laid, of_bytes};
ghost use Rattle.nr_shell.specs.Plans.{Answer, LeadsBy, Plan};
ghost use Rattle.nr_files.specs.Command.{Asked};
ghost use Rattle.nr_files.specs.Plans.{files_of, plan};
ghost use Rattle.nr_files.specs.declared.status.Status.{Status};
ghost use Rattle.nr_files.specs.declared.command.Work.TheVariants.{MakeBlocks, MakeGenesis, ShowBlocks, ShowGenesis};

/// What holds of the texts that are written of files. It does nothing when it runs.
#[tactic(auto, using(crate::proofs::RoundTrip::blocks_trip, crate::proofs::RoundTrip::genesis_trip))]
pub fn round_trips()
    // What `show blocks` writes of a file, with spaces or without, `blocks` makes into the same bytes.
    ensures blocks { (c : Config) (compact : Bool) (bytes text : List ℕ) (o : Output) → IsBytes bytes
        → of_bytes ShowBlocks c bytes ≡ Ok o → IsWritten (laid compact o) text
        → of_bytes MakeBlocks c text ≡ Ok (Bytes bytes) }
    // What `show genesis` writes of a file, `genesis` makes into the same bytes, under the same configuration.
    ensures genesis { (c : Config) (compact : Bool) (bytes text : List ℕ) (o : Output) → IsBytes bytes
        → of_bytes ShowGenesis c bytes ≡ Ok o → IsWritten (laid compact o) text
        → of_bytes MakeGenesis c text ≡ Ok (Bytes bytes) }
{}

/// Whatever its plan comes to, a command asks for its own files alone, in their order, and once for each; where it
/// comes to an answer, it has asked for all of them. Words that are no command ask for none. It does nothing when it
/// runs.
pub fn asked_law()
    ensures front { (held : List ℕ → Option (List ℕ)) (asked : Asked) (names : List (List ℕ)) (q : Plan Output Status)
        → LeadsBy held names (plan asked) q → (rest : List (List ℕ)) × (files_of asked ≡ names ++ rest) }
    ensures all { (held : List ℕ → Option (List ℕ)) (asked : Asked) (names : List (List ℕ)) (o : Output)
        → LeadsBy held names (plan asked) (Answer o) → names ≡ files_of asked }
{}
