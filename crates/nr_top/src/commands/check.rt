//! `check CONFIG GENESIS BLOCKS SCHEDULE`.

ghost use Rattle.std.specs.Prelude.{◌≡◌, ◌<◌, ◌≤◌, cond, nat_lt, IfOk};
ghost use Rattle.nr_blocks.specs.Genesis.{IsSoundGenesis};
ghost use Rattle.nr_course.specs.Course.{CanRun};
ghost use Rattle.nr_schedule.specs.Checking.{check_text};
ghost use Rattle.nr_shell.specs.Answers.{Follows, Judges, Makes};
ghost use Rattle.nr_top.specs.Answers.{refuses};
ghost use Rattle.nr_top.specs.Plans.{by_course, by_schedule_bytes, check_plan, most_shards, schedule_plan};
ghost use Rattle.nr_top.specs.Run.{loaded};
ghost use Rattle.nr_words.specs.Words.{names_in};

use crate::chain::{begin, load_course};
use crate::refused::schedule_stop;
use crate::status::Status;
use nr_bytes::{Blob, Shelf};
use nr_chainfiles::ChainFiles;
use nr_schedule::{Line, check, read_schedule};
use nr_shell::{Stop, load};
use nr_words::FileNames;
use std::alloc::{AllocError, Global};

/// The most bytes of a schedule, 1 MiB.
const SCHEDULE_LIMIT: usize = 1_048_576;

const LONG_SCHEDULE: Status = Status::Schedule { kind: 0, line: 0 };

/// The lines that some bytes spell, for so many shards.
fn lines_in(alloc: Global, shards: u32, bytes: &[u8]) -> Result<Vec<Line>, Stop<Status>>
    requires { 0 < shards }
    ensures { Judges refuses (λ lines. lines.items) result (by_schedule_bytes shards bytes.now) }
{
    match read_schedule(alloc, shards, bytes) {
        Ok(lines) => Ok(lines),
        Err(fault) => Err(schedule_stop(fault)),
    }
}

/// The lines of a file, for so many shards.
fn lines_of<S: Shelf>(
    alloc: Global,
    shards: u32,
    name: &str,
    shelf: &mut S,
) -> Result<Vec<Line>, Stop<Status>>
    requires { 0 < shards }
    ensures { Follows refuses (λ lines. lines.items) (S.held shelf.old) (S.held shelf.new)
        (S.asked shelf.old) (S.asked shelf.new) (S.faults shelf.old) (S.faults shelf.new)
        result (schedule_plan shards name.now) }
{
    match load(alloc, name, SCHEDULE_LIMIT, LONG_SCHEDULE, shelf) {
        Ok(bytes) => lines_in(alloc, shards, &bytes),
        Err(stop) => Err(stop),
    }
}

/// The greater of two counts.
fn greater(first: u32, later: u32) -> u32
    ensures which { result ≡ cond (nat_lt first later) later first }
    ensures least { first ≤ result }
{
    if first < later { later } else { first }
}

/// How many shards a schedule may name: the shard count of the run, and the greater of both where it changes.
fn most_shards(files: &ChainFiles) -> u32
    ensures count { result ≡ most_shards (loaded files.now) }
    ensures some { 0 < result }
{
    let first = files.genesis.layout.shards();
    match &files.file.reshard {
        Some(reshard) => greater(first, reshard.layout.shards()),
        None => first,
    }
}

/// What the lines of a schedule do to a run.
fn driven_by(alloc: Global, files: ChainFiles, lines: &[Line]) -> Result<Blob, AllocError>
    requires sound { IsSoundGenesis files.config files.genesis }
    requires can { CanRun (loaded files) }
    ensures { IfOk result (λ text. text ≡ check_text (loaded files) lines.now) }
{
    let begun = begin(files)?;
    let text = check(alloc, begun.chain, begun.turn, begun.supply, lines)?;
    Ok(text)
}

/// The same, or why not.
fn driven(alloc: Global, files: ChainFiles, lines: &[Line]) -> Result<Blob, Stop<Status>>
    requires sound { IsSoundGenesis files.config files.genesis }
    requires can { CanRun (loaded files) }
    ensures { Makes result (check_text (loaded files) lines.now) }
{
    match driven_by(alloc, files, lines) {
        Ok(text) => Ok(text),
        Err(_) => Err(Stop::Memory),
    }
}

/// The text of a run that is driven by the lines of a file.
pub(crate) fn scheduled<S: Shelf>(
    alloc: Global,
    files: ChainFiles,
    schedule: &str,
    shelf: &mut S,
) -> Result<Blob, Stop<Status>>
    requires sound { IsSoundGenesis files.config files.genesis }
    requires can { CanRun (loaded files) }
    ensures { Follows refuses (λ text. text) (S.held shelf.old) (S.held shelf.new)
        (S.asked shelf.old) (S.asked shelf.new) (S.faults shelf.old) (S.faults shelf.new)
        result (by_course schedule.now (loaded files)) }
{
    let shards = most_shards(&files);
    match lines_of(alloc, shards, schedule, shelf) {
        Ok(lines) => driven(alloc, files, &lines),
        Err(stop) => Err(stop),
    }
}

/// What the lines of a schedule do to the run that the files give.
#[inline(never)]
pub(crate) fn check_text<S: Shelf>(
    alloc: Global,
    names: &FileNames<'_>,
    schedule: &str,
    shelf: &mut S,
) -> Result<Blob, Stop<Status>>
    ensures { Follows refuses (λ text. text) (S.held shelf.old) (S.held shelf.new)
        (S.asked shelf.old) (S.asked shelf.new) (S.faults shelf.old) (S.faults shelf.new)
        result (check_plan (names_in names.now) schedule.now) }
{
    match load_course(alloc, names, shelf) {
        Ok(files) => scheduled(alloc, files, schedule, shelf),
        Err(stop) => Err(stop),
    }
}
