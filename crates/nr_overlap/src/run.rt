//! Lists of events, and the run of block after block.

ghost use Rattle.std.specs.Prelude.{◌≡◌, false, OnOk};
ghost use Rattle.nr_overlap.specs.Inside.{AreInside, IsInside};
ghost use Rattle.nr_overlap.specs.Run.{Tries, TriesAll, Finishes};
ghost use Rattle.nr_overlap.specs.Whole.{IsWholeRun};

use crate::event::{Event, StepFault};
use crate::interleaved::Core;
use crate::phases::Phases;
use std::alloc::AllocError;

/// Tries an event, whether it is enabled or not.
#[tactic(auto, using(crate::proofs::Running::tries_made, crate::proofs::Running::tries_not))]
fn try_one<P: Phases>(core: &mut Core<P>, event: Event) -> Result<(), AllocError>
    requires inside { IsInside (P.rules core.old.phases).shards event }
    requires whole { core.old.lost ≡ false }
    ensures { Tries (P.rules core.old.phases) core.old event result core.new }
{
    match core.step(event) {
        Ok(()) => Ok(()),
        Err(StepFault::NotEnabled(_)) => Ok(()),
        Err(StepFault::Memory) => Err(AllocError),
    }
}

/// Tries events in order, whichever they are. One that is not enabled changes nothing.
///
/// What the core shows after each is the serial run's: `Core::world`, `Core::working`, `Core::report` and
/// `Core::flight` say so of every core.
///
/// # Errors
///
/// Where a step met want of memory. The events before it were tried, and reports stay.
pub fn step_all<P: Phases>(core: &mut Core<P>, events: &[Event]) -> Result<(), AllocError>
    requires inside { AreInside (P.rules core.old.phases).shards events.now }
    requires whole { core.old.lost ≡ false }
    ensures { TriesAll (P.rules core.old.phases) core.old events.now result core.new }
{
    for event in events {
        try_one(core, *event)?;
    }
    Ok(())
}

/// Runs what is left, each step that of `Core::next_event`. From the start it is the run of block after block.
///
/// At the end the core shows the whole serial run: each shard's last world, each report, and the lists that no chunk
/// took.
///
/// # Errors
///
/// Where a step met want of memory. Reports stay.
pub fn run_serially<P: Phases>(core: &mut Core<P>) -> Result<(), AllocError>
    requires { core.old.lost ≡ false }
    ensures run { Finishes (P.rules core.old.phases) core.old result core.new }
    ensures serial { OnOk result (IsWholeRun (P.rules core.old.phases) core.new.positions) }
{
    while let Some(event) = core.next_event() {
        try_one(core, event)?;
    }
    Ok(())
}
