//! Why a command stops, with what it is told of.

ghost use Rattle.nr_shell.specs.Answers.{Retells};
ghost use Rattle.nr_jsonrun.specs.Words.{of_file, of_run};

use crate::words::{of_file, of_run};
use nr_files::Status;
use nr_shell::Stop;
use nr_top::Status as RunStatus;
use std::alloc::Global;

/// Why a command stops at a file, with the file's name.
pub(crate) fn file_stop(alloc: Global, file: &str, stop: Stop<Status>) -> Stop<Status>
    ensures { Retells (of_file file.now) stop result }
{
    match stop {
        Stop::Unread => Stop::Unread,
        Stop::Memory => Stop::Memory,
        Stop::Refused(status) => match of_file(alloc, file, status) {
            Ok(told) => Stop::Refused(told),
            Err(_) => Stop::Memory,
        },
    }
}

/// Why a run stops, in words.
pub(crate) fn run_stop(alloc: Global, stop: Stop<RunStatus>) -> Stop<Status>
    ensures { Retells of_run stop result }
{
    match stop {
        Stop::Unread => Stop::Unread,
        Stop::Memory => Stop::Memory,
        Stop::Refused(status) => match of_run(alloc, &status) {
            Ok(told) => Stop::Refused(told),
            Err(_) => Stop::Memory,
        },
    }
}
