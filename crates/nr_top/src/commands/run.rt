//! `run CONFIG GENESIS BLOCKS`, and `replay CONFIG GENESIS BLOCKS`.

ghost use Rattle.nr_blocks.specs.Genesis.{IsSoundGenesis};
ghost use Rattle.nr_course.specs.Course.{CanRun};
ghost use Rattle.nr_course.specs.Texts.{course_text};
ghost use Rattle.nr_shell.specs.Answers.{Follows, Makes};
ghost use Rattle.nr_top.specs.Answers.{refuses};
ghost use Rattle.nr_top.specs.Plans.{run_plan};
ghost use Rattle.nr_top.specs.Run.{loaded};
ghost use Rattle.nr_top.specs.Works.{IsRight, Runs};
ghost use Rattle.nr_words.specs.Words.{names_in};

use crate::chain::load_course;
use crate::status::Status;
use crate::work::Work;
use nr_bytes::{Blob, Shelf};
use nr_chainfiles::ChainFiles;
use nr_shell::Stop;
use nr_words::FileNames;
use std::alloc::{AllocError, Global};

/// Runs a chain to its end, and makes the report.
fn reported<F: Fn(Work) -> Result<Blob, AllocError>>(
    run: &F,
    files: ChainFiles,
) -> Result<Blob, Stop<Status>>
    requires sound { IsSoundGenesis files.config files.genesis }
    requires course { CanRun (loaded files) }
    requires can { Runs (F.pre run.now) }
    requires right { IsRight (F.post run.now) }
    ensures { Makes result (course_text (loaded files)) }
{
    match run(Work::Chain(files)) {
        Ok(text) => Ok(text),
        Err(_) => Err(Stop::Memory),
    }
}

/// The report of the chain that the files give.
#[inline(never)]
pub(crate) fn run_text<F: Fn(Work) -> Result<Blob, AllocError>, S: Shelf>(
    alloc: Global,
    run: &F,
    names: &FileNames<'_>,
    shelf: &mut S,
) -> Result<Blob, Stop<Status>>
    requires can { Runs (F.pre run.now) }
    requires right { IsRight (F.post run.now) }
    ensures { Follows refuses (λ text. text) (S.held shelf.old) (S.held shelf.new)
        (S.asked shelf.old) (S.asked shelf.new) (S.faults shelf.old) (S.faults shelf.new)
        result (run_plan (names_in names.now)) }
{
    match load_course(alloc, names, shelf) {
        Ok(files) => reported(run, files),
        Err(stop) => Err(stop),
    }
}
