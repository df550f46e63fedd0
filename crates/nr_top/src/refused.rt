//! Why a command stops where a file is refused.

ghost use Rattle.std.specs.Prelude.{◌≡◌, true};
ghost use Rattle.nr_outproof.specs.declared.fault.ProofFault.TheVariants as proof;
ghost use Rattle.nr_gathered.specs.declared.fault.GatheredFault.TheVariants as gathered;
ghost use Rattle.nr_parts.specs.declared.fault.PartFault.TheVariants as part;
ghost use Rattle.nr_recheck.specs.declared.fault.RecheckFault.TheVariants as recheck;
ghost use Rattle.nr_schedule.specs.declared.schedule.ScheduleFault.TheVariants as schedule;
ghost use Rattle.nr_shell.specs.Answers.{StopsBy};
ghost use Rattle.nr_top.specs.Answers.{refuses};
ghost use Rattle.nr_top.specs.Plans.{schedule_status};
ghost use Rattle.nr_top.specs.Proving.{proof_status};
ghost use Rattle.nr_top.specs.Rechecking.{gathered_status, recheck_status};
ghost use Rattle.nr_top.specs.StateParts.{part_status};
ghost use Rattle.nr_top.specs.declared.status.Status.TheVariants.{Gathered as faulty_gathered, Parts as faulty_parts};

use crate::status::Status;
use nr_gathered::GatheredFault;
use nr_outproof::ProofFault;
use nr_parts::PartFault;
use nr_recheck::RecheckFault;
use nr_schedule::ScheduleFault;
use nr_shell::Stop;

/// Why a faulty schedule stops the command.
pub(crate) fn schedule_stop(fault: ScheduleFault) -> Stop<Status>
    ensures { StopsBy refuses schedule.Memory schedule_status fault result }
{
    match fault {
        ScheduleFault::NoLine { line } => Stop::Refused(Status::Schedule { kind: 1, line }),
        ScheduleFault::Memory => Stop::Memory,
    }
}

/// Why a faulty proof stops the command.
pub(crate) fn proof_stop(fault: ProofFault) -> Stop<Status>
    ensures { StopsBy refuses proof.Memory proof_status fault result }
{
    match fault {
        ProofFault::Form { line } => Stop::Refused(Status::Proof { kind: 1, line }),
        ProofFault::Memory => Stop::Memory,
    }
}

fn parts_refusal(kind: u32, a: u64) -> Status
    ensures value { result ≡ faulty_parts kind a }
    ensures refuses { refuses result ≡ true }
{
    Status::Parts { kind, a }
}

/// Why the part at a position, or parts that don't join, stop the command.
pub(crate) fn part_stop(position: u64, fault: PartFault) -> Stop<Status>
    ensures { StopsBy refuses part.Memory (part_status position) fault result }
{
    match fault {
        PartFault::Spelling { at } => Stop::Refused(parts_refusal(1, at)),
        PartFault::Numbers { .. } => Stop::Refused(parts_refusal(2, position)),
        PartFault::Root { .. } => Stop::Refused(parts_refusal(3, position)),
        PartFault::Missing { .. } => Stop::Refused(parts_refusal(4, position)),
        PartFault::BadText { .. } => Stop::Refused(parts_refusal(5, position)),
        PartFault::Entries { index } => Stop::Refused(parts_refusal(6, index)),
        PartFault::Order { number } => Stop::Refused(parts_refusal(7, u64::from(number))),
        PartFault::Whole { .. } => Stop::Refused(parts_refusal(8, 0)),
        PartFault::TooMany => Stop::Refused(parts_refusal(9, position)),
        PartFault::Memory => Stop::Memory,
    }
}

fn gathered_refusal(kind: u32, a: u64) -> Status
    ensures value { result ≡ faulty_gathered kind a }
    ensures refuses { refuses result ≡ true }
{
    Status::Gathered { kind, a }
}

/// Why the file of a gathered chunk stops the command.
pub(crate) fn gathered_stop(fault: GatheredFault) -> Stop<Status>
    ensures { StopsBy refuses gathered.Memory gathered_status fault result }
{
    match fault {
        GatheredFault::Spelling { at } => Stop::Refused(gathered_refusal(1, at)),
        GatheredFault::Stake { at } => Stop::Refused(gathered_refusal(5, at)),
        GatheredFault::Memory => Stop::Memory,
    }
}

/// Why a chunk that isn't run again stops the command.
pub(crate) fn recheck_stop(fault: RecheckFault) -> Stop<Status>
    ensures { StopsBy refuses recheck.Memory recheck_status fault result }
{
    match fault {
        RecheckFault::Place => Stop::Refused(gathered_refusal(7, 0)),
        RecheckFault::Missing => Stop::Refused(gathered_refusal(2, 0)),
        RecheckFault::BadText => Stop::Refused(gathered_refusal(3, 0)),
        RecheckFault::TooMany => Stop::Refused(gathered_refusal(8, 0)),
        RecheckFault::NotWorld => Stop::Refused(gathered_refusal(4, 0)),
        RecheckFault::Bounds => Stop::Refused(gathered_refusal(6, 0)),
        RecheckFault::Memory => Stop::Memory,
    }
}
