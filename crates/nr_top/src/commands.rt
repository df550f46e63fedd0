//! The commands: what each answers before anything is written. Their functions are not inlined: each has room for
//! several chains in its frame, and so the stack holds that of one command alone.

ghost use Rattle.nr_shell.specs.Answers.{Follows};
ghost use Rattle.nr_top.specs.Answers.{refuses};
ghost use Rattle.nr_top.specs.Plans.{command_plan, replay_plan};
ghost use Rattle.nr_top.specs.Works.{IsRight, Runs};
ghost use Rattle.nr_words.specs.Words.{CanRun, command_in, names_in};

mod check;
mod check_part;
mod gather;
mod generate;
mod join_parts;
mod part;
mod prove;
mod recheck;
mod roots;
mod run;
mod verify;
mod with_bytes;

use crate::status::Status;
use crate::work::Work;
use check::check_text;
use check_part::check_part_text;
use gather::gather_text;
use generate::generate_text;
use join_parts::join_parts_text;
use nr_bytes::{Blob, Shelf};
use nr_shell::Stop;
use nr_words::{FileNames, Words};
use part::part_text;
use prove::prove_text;
use recheck::recheck_text;
use roots::roots_text;
use run::run_text;
use std::alloc::{AllocError, Global};
use verify::verify_text;
pub use with_bytes::replay_bytes;

/// The text of a replay, to its end or by a schedule.
fn replay_text<F: Fn(Work) -> Result<Blob, AllocError>, S: Shelf>(
    alloc: Global,
    run: &F,
    names: &FileNames<'_>,
    shelf: &mut S,
) -> Result<Blob, Stop<Status>>
    requires can { Runs (F.pre run.now) }
    requires right { IsRight (F.post run.now) }
    ensures { Follows refuses (λ text. text) (S.held shelf.old) (S.held shelf.new)
        (S.asked shelf.old) (S.asked shelf.new) (S.faults shelf.old) (S.faults shelf.new)
        result (replay_plan (names_in names.now) (names_in names.now).schedule) }
{
    match names.schedule {
        None => run_text(alloc, run, names, shelf),
        Some(schedule) => check_text(alloc, names, schedule, shelf),
    }
}

/// The text that a command asks for.
///
/// # Errors
///
/// `Unread` where a file could not be read, `Memory` where memory ran out, and `Refused` with the first refusal of the
/// command's plan.
pub(crate) fn text_of<F: Fn(Work) -> Result<Blob, AllocError>, S: Shelf>(
    alloc: Global,
    run: &F,
    command: &Words<'_>,
    shelf: &mut S,
) -> Result<Blob, Stop<Status>>
    requires can_run { CanRun command.now }
    requires can { Runs (F.pre run.now) }
    requires right { IsRight (F.post run.now) }
    ensures { Follows refuses (λ text. text) (S.held shelf.old) (S.held shelf.new)
        (S.asked shelf.old) (S.asked shelf.new) (S.faults shelf.old) (S.faults shelf.new)
        result (command_plan (command_in command.now)) }
{
    match command {
        Words::ReplayFiles(names) => replay_text(alloc, run, names, shelf),
        Words::GenerateInput {
            start,
            shards,
            blocks,
        } => generate_text(run, *start, *shards, *blocks),
        Words::ChunkRoots(files) => roots_text(alloc, files, shelf),
        Words::ProveItem { files, item } => prove_text(alloc, files, *item, shelf),
        Words::VerifyProof { root, proof } => verify_text(alloc, root, proof, shelf),
        Words::CutPart { files, part } => part_text(alloc, files, *part, shelf),
        Words::CheckPartFile { root, file } => check_part_text(alloc, root, file, shelf),
        Words::JoinPartFiles {
            root,
            count,
            prefix,
        } => join_parts_text(alloc, root, *count, prefix, shelf),
        Words::GatherChunk { files, chunk } => gather_text(alloc, files, *chunk, shelf),
        Words::RecheckChunk { config, file } => recheck_text(alloc, config, file, shelf),
    }
}
