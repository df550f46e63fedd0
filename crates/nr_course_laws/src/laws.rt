//! What a change of boundaries leaves as it is. The function here does nothing when it runs: its contract is the law.

ghost use Rattle.nr_chunk.specs.Chain.{Chain, IsChain};
ghost use Rattle.nr_course.specs.Course.{CanTurn};
ghost use Rattle.nr_course.specs.declared.turn.Turn.{Turn};
ghost use Rattle.nr_course_laws.specs.Turning.{TurnsAlike};

/// Where a chain that is over goes on under other boundaries, the change alone alters no total: before the first step
/// of what follows, the tokens of accounts and of receipts, the burnt ones and the five counts of receipts are those of
/// the end. What was postponed, delayed or in flight still is.
pub fn turning_laws()
    ensures same { (x : Chain) (t : Turn) → IsChain x → CanTurn x t → TurnsAlike x t }
{}
