//! What holds wherever a schedule leads. The function does nothing when it runs: its contract is the law.

ghost use Rattle.std.specs.Prelude.{◌≡◌, List, None, Some};
ghost use Rattle.nr_chunk.specs.Chain.{rules_of};
ghost use Rattle.nr_chunk.specs.Start.{start_tokens};
ghost use Rattle.nr_course.specs.Course.{AreLegs, CanRun, Course};
ghost use Rattle.nr_course.specs.Totals.{AddUp, receipts_at_first};
ghost use Rattle.nr_course.specs.declared.turn.Turn.{Turn};
ghost use Rattle.nr_overlap.specs.Next.{next_event};
ghost use Rattle.nr_schedule.specs.Checking.{by_reshard, by_rest, crossed, standing_after, totals_there};
ghost use Rattle.nr_schedule.specs.Laws.{IsOver, OnCourse};
ghost use Rattle.nr_schedule.specs.declared.schedule.Line.{Line};

use nr_course::laws::course_laws;

/// Wherever the lines of a schedule lead.
pub fn schedule_laws()
    // It is a moment of the first leg or of the second: events lead there from the leg's opening.
    ensures stands { (o : Course) (lines : List Line) → OnCourse o (standing_after o lines) }
    // The totals there tell what the first leg started with in tokens,
    ensures supply { (o : Course) (lines : List Line) → (totals_there (standing_after o lines)).supply
        ≡ start_tokens o.first.config o.first.start }
    // and tokens and receipts add up to what it started with.
    ensures adds { (o : Course) → AreLegs o → CanRun o → (lines : List Line)
        → AddUp (receipts_at_first o.first) (totals_there (standing_after o lines)) }
    // Where no event of the leg in force is left but a change of boundaries is, the change can be made.
    ensures enabled { (o : Course) (lines : List Line) (t : Turn) → let d = standing_after o lines in d.turn ≡ Some t
        → next_event (rules_of d.leg) d.positions ≡ None → by_reshard d ≡ crossed d t }
    // From wherever lines lead `rest` leads to the end.
    ensures rest { (o : Course) (lines : List Line) → IsOver (by_rest (standing_after o lines)) }
{
    course_laws();
}
