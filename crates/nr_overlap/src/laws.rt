//! What holds of every cut of a run.

ghost use Rattle.nr_overlap.specs.Cut.{CutsAreSerial};
ghost use Rattle.nr_overlap.specs.Led.{ReachedAreLed};
ghost use Rattle.nr_overlap.specs.Next.{NextIsNext};

use crate::phases::Phases;

/// Values that come from the rules alone are the serial run's: wherever a list of events leads, the worlds and working
/// states of the shards, the reports of the sealed chunks and the lists that were sealed and not taken, each made by
/// opening, taking and sealing what stood before, are those of the serial run at the same positions. It does nothing
/// when it runs.
pub fn cut_law<P: Phases>(phases: &P)
    ensures serial { CutsAreSerial (P.rules phases.now) }
{}

/// Each shard's number, stage and number of taken lists, where every list that was taken was published, are positions
/// that some list of events leads to from the opening. It does nothing when it runs.
pub fn reached_law<P: Phases>(phases: &P)
    ensures led { ReachedAreLed (P.rules phases.now) }
{}

/// Which event comes next is a function of positions: wherever steps can lead, it gives what `Core::next_event`
/// answers, an enabled event or none exactly at the end, and one such event after another leads to the end. It does
/// nothing when it runs.
pub fn next_law<P: Phases>(phases: &P)
    ensures next { NextIsNext (P.rules phases.now) }
{}
