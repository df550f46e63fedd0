//! `part CONFIG GENESIS BLOCKS HEIGHT SHARD COUNT NUMBER`.

ghost use Rattle.std.specs.Prelude.{◌≡◌, true, IfOk};
ghost use Rattle.nr_blocks.specs.Genesis.{IsSoundGenesis};
ghost use Rattle.nr_chunk.specs.Chain.{rules_of};
ghost use Rattle.nr_course.specs.Course.{CanRun};
ghost use Rattle.nr_overlap.specs.Run.{opening};
ghost use Rattle.nr_shell.specs.Answers.{Follows, Judges};
ghost use Rattle.nr_top.specs.Answers.{refuses};
ghost use Rattle.nr_top.specs.Moments.{IsMoment, chain_of};
ghost use Rattle.nr_top.specs.Plans.{part_plan};
ghost use Rattle.nr_top.specs.Chunks.{has_chunk};
ghost use Rattle.nr_top.specs.StateParts.{cut_answer, leg_cut, part_text};
ghost use Rattle.nr_top.specs.Run.{loaded};
ghost use Rattle.nr_words.specs.Words.{CanCut, names_in};

use crate::chain::load_course;
use crate::legs::leg_before;
use crate::run::Run;
use crate::state_after::{entries_after, has_chunk};
use crate::status::Status;
use nr_bytes::{Blob, Shelf};
use nr_chainfiles::ChainFiles;
use nr_ids::{Height, ShardId};
use nr_parts::{cut_part, write_part};
use nr_shell::Stop;
use nr_words::{FileNames, StatePart};
use std::alloc::{AllocError, Global};

/// The file of a part of the state behind a chunk that a chain has.
#[tactic(auto, unfolding(crate::specs::StateParts::part_text))]
fn cut_text(alloc: Global, core: Run, part: StatePart) -> Result<Blob, AllocError>
    requires moment { IsMoment core }
    requires first { core.positions ≡ opening (rules_of (chain_of core)) }
    requires there { has_chunk (chain_of core) part.shard part.height ≡ true }
    requires part { CanCut part }
    ensures { IfOk result (λ text. text ≡ part_text (chain_of core) part) }
{
    let entries = entries_after(core, ShardId(part.shard), Height(part.height))?;
    let cut = cut_part(alloc, &entries, part.count, part.number)?;
    let mut text = Blob::of(Vec::new(alloc));
    write_part(alloc, &cut, &mut text)?;
    Ok(text)
}

/// The same of a chain before its first chunk, where it has the chunk.
fn cut_if_there(alloc: Global, core: Run, part: StatePart) -> Result<Blob, Stop<Status>>
    requires moment { IsMoment core }
    requires first { core.positions ≡ opening (rules_of (chain_of core)) }
    requires part { CanCut part }
    ensures { Judges refuses (λ text. text) result (leg_cut part (chain_of core)) }
{
    if !has_chunk(&core, ShardId(part.shard), Height(part.height)) {
        return Err(Stop::Refused(Status::NoItem { count: 0 }));
    }
    match cut_text(alloc, core, part) {
        Ok(text) => Ok(text),
        Err(_) => Err(Stop::Memory),
    }
}

/// The same of the leg that has the chunk.
fn cut(alloc: Global, files: ChainFiles, part: StatePart) -> Result<Blob, Stop<Status>>
    requires sound { IsSoundGenesis files.config files.genesis }
    requires can { CanRun (loaded files) }
    requires part { CanCut part }
    ensures { Judges refuses (λ text. text) result (cut_answer part (loaded files)) }
{
    match leg_before(alloc, files, part.height) {
        Ok((core, height)) => cut_if_there(alloc, core, StatePart { height, ..part }),
        Err(_) => Err(Stop::Memory),
    }
}

/// The file of a part of a shard's state behind a chunk of the chain that the files give.
#[inline(never)]
pub(crate) fn part_text<S: Shelf>(
    alloc: Global,
    names: &FileNames<'_>,
    part: StatePart,
    shelf: &mut S,
) -> Result<Blob, Stop<Status>>
    requires { CanCut part }
    ensures { Follows refuses (λ text. text) (S.held shelf.old) (S.held shelf.new)
        (S.asked shelf.old) (S.asked shelf.new) (S.faults shelf.old) (S.faults shelf.new)
        result (part_plan (names_in names.now) part) }
{
    match load_course(alloc, names, shelf) {
        Ok(files) => cut(alloc, files, part),
        Err(stop) => Err(stop),
    }
}
