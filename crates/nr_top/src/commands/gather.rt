//! `gather CONFIG GENESIS BLOCKS HEIGHT SHARD`.

ghost use Rattle.std.specs.Prelude.{◌≡◌, true, IfOk};
ghost use Rattle.nr_blocks.specs.Genesis.{IsSoundGenesis};
ghost use Rattle.nr_chunk.specs.Chain.{rules_of};
ghost use Rattle.nr_course.specs.Course.{CanRun};
ghost use Rattle.nr_overlap.specs.Run.{opening};
ghost use Rattle.nr_shell.specs.Answers.{Follows, Judges};
ghost use Rattle.nr_top.specs.Answers.{refuses};
ghost use Rattle.nr_top.specs.Chunks.{has_chunk};
ghost use Rattle.nr_top.specs.Gathering.{gather_answer, gather_text, leg_gather};
ghost use Rattle.nr_top.specs.Moments.{IsMoment, chain_of};
ghost use Rattle.nr_top.specs.Plans.{gather_plan};
ghost use Rattle.nr_top.specs.Run.{loaded};
ghost use Rattle.nr_words.specs.Words.{CanGather, names_in};

use crate::chain::load_course;
use crate::legs::leg_before;
use crate::run::Run;
use crate::state_after::has_chunk;
use crate::status::Status;
use nr_bytes::{Blob, Shelf};
use nr_chainfiles::ChainFiles;
use nr_extract::extract;
use nr_gathered::write_gathered;
use nr_ids::{Height, ShardId};
use nr_shell::Stop;
use nr_words::{ChunkPlace, FileNames};
use std::alloc::{AllocError, Global};

/// The file of a chunk that a chain has, before its first chunk.
#[tactic(auto, unfolding(crate::specs::Gathering::gather_text))]
fn gathered_text(alloc: Global, core: Run, chunk: ChunkPlace) -> Result<Blob, AllocError>
    requires moment { IsMoment core }
    requires first { core.positions ≡ opening (rules_of (chain_of core)) }
    requires there { has_chunk (chain_of core) chunk.shard chunk.height ≡ true }
    requires chunk { CanGather chunk }
    ensures { IfOk result (λ text. text ≡ gather_text (chain_of core) chunk) }
{
    let below = chunk.height.saturating_sub(1);
    let gathered = extract(alloc, core, ShardId(chunk.shard), below)?;
    let mut text = Blob::of(Vec::new(alloc));
    write_gathered(alloc, &gathered, &mut text)?;
    Ok(text)
}

/// The same of a chain before its first chunk, where it has the chunk.
fn gathered_if_there(alloc: Global, core: Run, chunk: ChunkPlace) -> Result<Blob, Stop<Status>>
    requires moment { IsMoment core }
    requires first { core.positions ≡ opening (rules_of (chain_of core)) }
    requires chunk { CanGather chunk }
    ensures { Judges refuses (λ text. text) result (leg_gather chunk (chain_of core)) }
{
    if !has_chunk(&core, ShardId(chunk.shard), Height(chunk.height)) {
        return Err(Stop::Refused(Status::NoItem { count: 0 }));
    }
    match gathered_text(alloc, core, chunk) {
        Ok(text) => Ok(text),
        Err(_) => Err(Stop::Memory),
    }
}

/// The same of the leg that has the chunk.
fn gathered(alloc: Global, files: ChainFiles, chunk: ChunkPlace) -> Result<Blob, Stop<Status>>
    requires sound { IsSoundGenesis files.config files.genesis }
    requires can { CanRun (loaded files) }
    requires chunk { CanGather chunk }
    ensures { Judges refuses (λ text. text) result (gather_answer chunk (loaded files)) }
{
    match leg_before(alloc, files, chunk.height) {
        Ok((core, height)) => gathered_if_there(alloc, core, ChunkPlace { height, ..chunk }),
        Err(_) => Err(Stop::Memory),
    }
}

/// The file of a chunk of the chain that the files give, with all that it is run again from.
#[inline(never)]
pub(crate) fn gather_text<S: Shelf>(
    alloc: Global,
    names: &FileNames<'_>,
    chunk: ChunkPlace,
    shelf: &mut S,
) -> Result<Blob, Stop<Status>>
    requires { CanGather chunk }
    ensures { Follows refuses (λ text. text) (S.held shelf.old) (S.held shelf.new)
        (S.asked shelf.old) (S.asked shelf.new) (S.faults shelf.old) (S.faults shelf.new)
        result (gather_plan (names_in names.now) chunk) }
{
    match load_course(alloc, names, shelf) {
        Ok(files) => gathered(alloc, files, chunk),
        Err(stop) => Err(stop),
    }
}
