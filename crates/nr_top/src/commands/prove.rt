//! `prove CONFIG GENESIS BLOCKS HEIGHT SHARD KIND PLACE`.

ghost use Rattle.std.specs.Prelude.{Some};
ghost use Rattle.nr_blocks.specs.Genesis.{IsSoundGenesis};
ghost use Rattle.nr_chunk.specs.Runs.{chain_in};
ghost use Rattle.nr_course.specs.Course.{CanRun};
ghost use Rattle.nr_shell.specs.Answers.{Follows, Judges};
ghost use Rattle.nr_top.specs.Answers.{refuses};
ghost use Rattle.nr_top.specs.Chunks.{result_at};
ghost use Rattle.nr_top.specs.Plans.{prove_plan};
ghost use Rattle.nr_top.specs.Proving.{by_chunk, by_item, by_proof};
ghost use Rattle.nr_top.specs.Run.{loaded};
ghost use Rattle.nr_words.specs.Words.{names_in};

use crate::chain::load_course;
use crate::legs::leg_over;
use crate::status::Status;
use nr_bytes::{Blob, Shelf};
use nr_chainfiles::ChainFiles;
use nr_contract::ContractCaller;
use nr_ids::{Height, ShardId};
use nr_outcome::Outcome;
use nr_outproof::{Proof, item_count, prove, write_proof};
use nr_records::ChunkResult;
use nr_shell::Stop;
use nr_words::{ChunkItem, FileNames};
use std::alloc::Global;

/// The text of a proof, or the refusal where there is none among so many items.
fn written(alloc: Global, proof: Option<Proof>, count: u64) -> Result<Blob, Stop<Status>>
    ensures { Judges refuses (λ text. text) result (by_proof count proof) }
{
    let Some(proof) = proof else {
        return Err(Stop::Refused(Status::NoItem { count }));
    };
    let mut text = Blob::of(Vec::new(alloc));
    match write_proof(alloc, &proof, &mut text) {
        Ok(()) => Ok(text),
        Err(_) => Err(Stop::Memory),
    }
}

/// The text of the proof of an item of a chunk.
fn proved_in(alloc: Global, chunk: &ChunkResult, item: ChunkItem) -> Result<Blob, Stop<Status>>
    ensures { Judges refuses (λ text. text) result (by_chunk item (Some chunk.now)) }
{
    let count = item_count(chunk, item.kind);
    match prove(alloc, chunk, item.kind, item.place) {
        Ok(proof) => written(alloc, proof, count),
        Err(_) => Err(Stop::Memory),
    }
}

/// The same in a leg that was run to its end, where it has the chunk at a height as it counts there.
fn proved_by(
    alloc: Global,
    outcome: &Outcome<ContractCaller>,
    height: u64,
    item: ChunkItem,
) -> Result<Blob, Stop<Status>>
    ensures { Judges refuses (λ text. text) result
        (by_chunk item (result_at (chain_in outcome.now.chain) item.shard height)) }
{
    match outcome.report(ShardId(item.shard), Height(height)) {
        Some(chunk) => proved_in(alloc, chunk, item),
        None => Err(Stop::Refused(Status::NoItem { count: 0 })),
    }
}

/// The same in the leg that has the height, run to its end.
fn proved(alloc: Global, files: ChainFiles, item: ChunkItem) -> Result<Blob, Stop<Status>>
    requires sound { IsSoundGenesis files.config files.genesis }
    requires can { CanRun (loaded files) }
    ensures { Judges refuses (λ text. text) result (by_item item (loaded files)) }
{
    match leg_over(alloc, files, item.height) {
        Ok((outcome, height)) => proved_by(alloc, &outcome, height, item),
        Err(_) => Err(Stop::Memory),
    }
}

/// The proof of an item in the chain that the files give.
#[inline(never)]
pub(crate) fn prove_text<S: Shelf>(
    alloc: Global,
    names: &FileNames<'_>,
    item: ChunkItem,
    shelf: &mut S,
) -> Result<Blob, Stop<Status>>
    ensures { Follows refuses (λ text. text) (S.held shelf.old) (S.held shelf.new)
        (S.asked shelf.old) (S.asked shelf.new) (S.faults shelf.old) (S.faults shelf.new)
        result (prove_plan (names_in names.now) item) }
{
    match load_course(alloc, names, shelf) {
        Ok(files) => proved(alloc, files, item),
        Err(stop) => Err(stop),
    }
}
