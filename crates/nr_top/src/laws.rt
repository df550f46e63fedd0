//! What holds of every run, and of every command.

ghost use Rattle.std.specs.Prelude.{◌≡◌, ◌+◌, ◌++◌, ℕ, List, Option, Some, is_some};
ghost use Rattle.nr_blocks.specs.Genesis.{AreSoundEntries, supply};
ghost use Rattle.nr_chainfiles.specs.declared.loading.ChainFiles.{ChainFiles};
ghost use Rattle.nr_chunk.specs.Chain.{Chain, rules_of};
ghost use Rattle.nr_course.specs.Course.{AreLegs, CanRun, second};
ghost use Rattle.nr_course.specs.Totals.{course_totals, totals_behind};
ghost use Rattle.nr_course.specs.declared.turn.Turn.{Turn};
ghost use Rattle.nr_outcome.specs.Totals.{totals_at};
ghost use Rattle.nr_overlap.specs.Inside.{AreInside};
ghost use Rattle.nr_overlap.specs.Run.{opening, run_of};
ghost use Rattle.nr_overlap.specs.declared.event.Event.{Event};
ghost use Rattle.nr_records.specs.declared.chunk_result.ChunkResult.{ChunkResult};
ghost use Rattle.nr_schedule.specs.Checking.{standing_after, totals_there};
ghost use Rattle.nr_schedule.specs.declared.schedule.Line.{Line};
ghost use Rattle.nr_configfile.specs.Plans.{config_plan};
ghost use Rattle.nr_shell.specs.Plans.{Answer, LeadsBy, Plan, and_then};
ghost use Rattle.nr_top.specs.Plans.{files_of, plan, replay_by, replay_plan};
ghost use Rattle.nr_top.specs.Chunks.{has_chunk, result_at};
ghost use Rattle.nr_top.specs.Run.{loaded};
ghost use Rattle.nr_top.specs.Totals.{AddUp};
ghost use Rattle.nr_top.specs.declared.status.Status.{Status};
ghost use Rattle.nr_top.specs.declared.status.Status.TheVariants.{Config};
ghost use Rattle.nr_words.specs.Command.{Command, Names};

use nr_course::laws::course_laws;
use nr_schedule::laws::schedule_laws;

/// The totals tell the supply of the genesis, and add up: what the accounts have, what receipts hold and what was burnt
/// are together this supply, and as many receipts were routed as are executed, postponed, delayed and in flight. So it
/// is of a run, wherever the lines of a schedule lead, and wherever steps lead in either leg. It does nothing when it
/// runs.
pub fn totals_law()
    ensures run { (files : ChainFiles) → AreSoundEntries files.config files.genesis.entries → let o = loaded files in
        AreLegs o → CanRun o → AddUp (supply files.genesis.entries) (course_totals o) }
    ensures first { (files : ChainFiles) → AreSoundEntries files.config files.genesis.entries → let o = loaded files in
        let r = rules_of o.first in
        AreLegs o → CanRun o → (es : List Event) → AreInside r.shards es
        → AddUp (supply files.genesis.entries) (totals_at o.first (run_of r (opening r) es)) }
    ensures driven { (files : ChainFiles) → AreSoundEntries files.config files.genesis.entries → let o = loaded files in
        AreLegs o → CanRun o → (lines : List Line)
        → AddUp (supply files.genesis.entries) (totals_there (standing_after o lines)) }
    ensures behind { (files : ChainFiles) → AreSoundEntries files.config files.genesis.entries → let o = loaded files in
        AreLegs o → CanRun o → (t : Turn) → o.turn ≡ Some t → let r = rules_of (second o.first t) in
        (es : List Event) → AreInside r.shards es
        → AddUp (supply files.genesis.entries) (totals_behind o.first t (run_of r (opening r) es)) }
{
    course_laws();
    schedule_laws();
}

/// Whatever its plan comes to, a command asks for its own files alone, in their order, and once for each; where it
/// comes to an answer, it has asked for all of them. Words that are no command ask for none. It does nothing when it
/// runs.
pub fn asked_law()
    ensures front { (held : List ℕ → Option (List ℕ)) (asked : Option Command) (names : List (List ℕ))
        (q : Plan (List ℕ) Status)
        → LeadsBy held names (plan asked) q → (rest : List (List ℕ)) × (files_of asked ≡ names ++ rest) }
    ensures all { (held : List ℕ → Option (List ℕ)) (asked : Option Command) (names : List (List ℕ)) (text : List ℕ)
        → LeadsBy held names (plan asked) (Answer text) → names ≡ files_of asked }
{}

/// What `run` and `check` do is their configuration and what they do behind it. It does nothing when it runs.
pub fn behind_law()
    ensures { (names : Names) (schedule : Option (List ℕ)) → replay_plan names schedule
        ≡ and_then (config_plan Config names.config) (replay_by names schedule) }
{}

/// A run to its end has the result of a chunk exactly where the chain has the chunk, and it states the chunk's shard
/// and height. So `roots` has a line for each of these chunks and for no other, and `prove` says exactly of the others
/// that there is no such chunk. It does nothing when it runs.
pub fn chunks_law()
    ensures there { (x : Chain) (shard height : ℕ) → is_some (result_at x shard height) ≡ has_chunk x shard height }
    ensures named { (x : Chain) (shard height : ℕ) (y : ChunkResult) → result_at x shard height ≡ Some y
        → (y.shard.0 ≡ shard) × (y.height.0 ≡ x.start.below + height) }
{}
