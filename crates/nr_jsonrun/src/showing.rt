//! The text of a run as JSON.

ghost use Rattle.nr_config.specs.Config.{free};
ghost use Rattle.nr_files.specs.Answers.{output_in, refuses};
ghost use Rattle.nr_files.specs.Plans.{by_bytes};
ghost use Rattle.nr_files.specs.declared.command.Work.TheVariants.{ShowReport};
ghost use Rattle.nr_files.specs.declared.status.Status.TheVariants.{TooLong};
ghost use Rattle.nr_shell.specs.Answers.{Judges};
ghost use Rattle.nr_shell.specs.Plans.{by_length};
ghost use Rattle.nr_jsonrun.specs.Plans.{report, request, shown};

use crate::stops::file_stop;
use nr_config::Config;
use nr_files::{FILE_LIMIT, Output, Request, Status, Work, judged};
use nr_shell::Stop;
use std::alloc::Global;

/// What `show report` gives of a text.
fn report_of(alloc: Global, text: &[u8]) -> Result<Output, Stop<Status>>
    ensures { Judges refuses output_in result
        (by_length 268435456 TooLong (by_bytes (request ShowReport report) free) text.now) }
{
    if FILE_LIMIT < text.len() {
        return Err(Stop::Refused(Status::TooLong));
    }
    let request = Request {
        work: Work::ShowReport,
        compact: false,
        config: "free",
        file: "the report",
    };
    judged(alloc, &request, &Config::free(), text)
}

/// The same, whose refusals say that they are of the report.
pub(crate) fn shown(alloc: Global, text: &[u8]) -> Result<Output, Stop<Status>>
    ensures { Judges refuses output_in result (shown text.now) }
{
    match report_of(alloc, text) {
        Ok(output) => Ok(output),
        Err(stop) => Err(file_stop(alloc, "the report", stop)),
    }
}
