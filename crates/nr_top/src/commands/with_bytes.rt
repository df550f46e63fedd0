//! `run` and `check` behind their configuration, over the bytes of a genesis and of blocks that are there.

ghost use Rattle.std.specs.Prelude.{None, Some, IfOk};
ghost use Rattle.nr_blocks.specs.Genesis.{IsSoundGenesis};
ghost use Rattle.nr_course.specs.Course.{CanRun};
ghost use Rattle.nr_course.specs.Texts.{course_text};
ghost use Rattle.nr_shell.specs.Answers.{Follows, Judges, Makes};
ghost use Rattle.nr_shell.specs.Plans.{with_bytes};
ghost use Rattle.nr_top.specs.Answers.{refuses};
ghost use Rattle.nr_top.specs.Plans.{course_by, replay_bytes};
ghost use Rattle.nr_top.specs.Run.{loaded};
ghost use Rattle.nr_words.specs.Command.{Names};
ghost use Rattle.nr_words.specs.Words.{names_in};

use crate::chain::can_run;
use crate::commands::check::scheduled;
use crate::run::report;
use crate::status::Status;
use nr_bytes::{Blob, Shelf};
use nr_chainfiles::{ChainFiles, chain_in_bytes};
use nr_config::Config;
use nr_shell::Stop;
use nr_words::FileNames;
use std::alloc::Global;

/// The run of a configuration and of these bytes.
#[inline(never)]
fn course_of(
    alloc: Global,
    config: Config,
    genesis: Blob,
    blocks: Blob,
) -> Result<ChainFiles, Stop<Status>>
    ensures judges { (names : Names)
        → Judges refuses loaded result (with_bytes blocks (with_bytes genesis (course_by names config))) }
    ensures sound { IfOk result (λ files. IsSoundGenesis files.config files.genesis) }
    ensures can { IfOk result (λ files. CanRun (loaded files)) }
{
    let first = genesis.into_inner();
    let second = blocks.into_inner();
    match chain_in_bytes::<Status>(alloc, config, first, second) {
        Ok(files) => {
            can_run(&files);
            Ok(files)
        }
        Err(stop) => Err(stop),
    }
}

/// The report of a run, or that there was no memory for it.
fn reported(alloc: Global, files: ChainFiles) -> Result<Blob, Stop<Status>>
    requires sound { IsSoundGenesis files.config files.genesis }
    requires can { CanRun (loaded files) }
    ensures { Makes result (course_text (loaded files)) }
{
    match report(alloc, files) {
        Ok(text) => Ok(text),
        Err(_) => Err(Stop::Memory),
    }
}

/// The report of the run of these bytes.
#[inline(never)]
fn ran(alloc: Global, config: Config, genesis: Blob, blocks: Blob) -> Result<Blob, Stop<Status>>
    ensures { (names : Names) → Judges refuses (λ text. text) result (replay_bytes names None config genesis blocks) }
{
    match course_of(alloc, config, genesis, blocks) {
        Ok(files) => reported(alloc, files),
        Err(stop) => Err(stop),
    }
}

/// What the lines of a schedule do to the run of these bytes.
#[inline(never)]
fn driven<S: Shelf>(
    alloc: Global,
    config: Config,
    genesis: Blob,
    blocks: Blob,
    schedule: &str,
    shelf: &mut S,
) -> Result<Blob, Stop<Status>>
    ensures { (names : Names) → Follows refuses (λ text. text) (S.held shelf.old) (S.held shelf.new)
        (S.asked shelf.old) (S.asked shelf.new) (S.faults shelf.old) (S.faults shelf.new)
        result (replay_bytes names (Some schedule.now) config genesis blocks) }
{
    match course_of(alloc, config, genesis, blocks) {
        Ok(files) => scheduled(alloc, files, schedule, shelf),
        Err(stop) => Err(stop),
    }
}

/// Does what `run`, or with a schedule `check`, does behind its configuration, over a genesis and blocks that are there
/// and not in files; the names are those of the files that they would stand in.
///
/// # Errors
///
/// `Refused` with the first refusal, `Unread` where the schedule could not be read, and `Memory` where memory ran out.
pub fn replay_bytes<S: Shelf>(
    alloc: Global,
    names: &FileNames<'_>,
    config: Config,
    genesis: Blob,
    blocks: Blob,
    shelf: &mut S,
) -> Result<Blob, Stop<Status>>
    ensures { Follows refuses (λ text. text) (S.held shelf.old) (S.held shelf.new)
        (S.asked shelf.old) (S.asked shelf.new) (S.faults shelf.old) (S.faults shelf.new)
        result (replay_bytes (names_in names.now) (names_in names.now).schedule config genesis blocks) }
{
    match names.schedule {
        None => ran(alloc, config, genesis, blocks),
        Some(schedule) => driven(alloc, config, genesis, blocks, schedule, shelf),
    }
}
