//! `roots CONFIG GENESIS BLOCKS`.

ghost use Rattle.std.specs.Prelude.{◌≡◌, ◌++◌, Some, IfOk, OnOk, string_bytes};
ghost use Rattle.nr_blocks.specs.Genesis.{IsSoundGenesis};
ghost use Rattle.nr_chunk.specs.Runs.{chain_in};
ghost use Rattle.nr_course.specs.Course.{CanRun, CanTurn};
ghost use Rattle.nr_course.specs.declared.turn.Turn.{Turn as Turned};
ghost use Rattle.nr_shell.specs.Answers.{Follows, Makes};
ghost use Rattle.nr_top.specs.Answers.{refuses};
ghost use Rattle.nr_top.specs.Plans.{roots_plan};
ghost use Rattle.nr_top.specs.Chunks.{result_at};
ghost use Rattle.nr_top.specs.Proving.{height_roots, later_roots, leg_roots, roots_line, roots_text, roots_told};
ghost use Rattle.nr_top.specs.Run.{loaded};
ghost use Rattle.nr_words.specs.Words.{names_in};

use crate::chain::{begin, load_course};
use crate::run::run_over;
use crate::status::Status;
use nr_bytes::{Blob, Shelf};
use nr_chainfiles::ChainFiles;
use nr_contract::ContractCaller;
use nr_course::{Turn, cross};
use nr_ids::{Height, ShardId};
use nr_outcome::Outcome;
use nr_outproof::chunk_root;
use nr_overlap::Phases;
use nr_records::ChunkResult;
use nr_shell::Stop;
use nr_words::{FileNames, ProofKind};
use std::alloc::{AllocError, Global};

/// The line of a chunk.
#[tactic(auto, unfolding(nr_report::specs::Lines::hash_word))]
fn line_of(alloc: Global, chunk: &ChunkResult) -> Result<String, AllocError>
    ensures { IfOk result (λ line. string_bytes line ≡ roots_line chunk.now) }
{
    let outcomes = chunk_root(alloc, chunk, ProofKind::Outcome)?;
    let receipts = chunk_root(alloc, chunk, ProofKind::Receipt)?;
    let outcomes = hex::encode(alloc, outcomes.0)?;
    let receipts = hex::encode(alloc, receipts.0)?;
    let height = chunk.height.0;
    let shard = chunk.shard.0;
    format!(in alloc; "roots {height} {shard} {outcomes} {receipts}\n")
}

/// Adds the line of a chunk, where there is one.
fn add_chunk(
    alloc: Global,
    outcome: &Outcome<ContractCaller>,
    shard: ShardId,
    height: Height,
    text: &mut Blob,
) -> Result<(), AllocError>
    ensures { OnOk result (text.new ≡ text.old
        ++ roots_told (result_at (chain_in outcome.now.chain) shard.0 height.0)) }
{
    let Some(chunk) = outcome.report(shard, height) else {
        return Ok(());
    };
    let line = line_of(alloc, chunk)?;
    text.vec_mut().extend_from_slice(line.as_bytes())
}

/// Adds the lines of the chunks of a height.
#[tactic(auto, unfolding(nr_outcome::specs::Texts::text_below))]
fn add_height(
    alloc: Global,
    outcome: &Outcome<ContractCaller>,
    height: Height,
    text: &mut Blob,
) -> Result<(), AllocError>
    ensures { OnOk result (text.new ≡ text.old ++ height_roots (chain_in outcome.now.chain) height.0) }
{
    for shard in 0..outcome.chain().shards() {
        add_chunk(alloc, outcome, ShardId(shard), height, text)?;
    }
    Ok(())
}

/// Adds the lines of all chunks of a leg.
#[tactic(auto, unfolding(nr_outcome::specs::Texts::text_below, crate::specs::Proving::leg_roots))]
fn add_leg(
    alloc: Global,
    outcome: &Outcome<ContractCaller>,
    text: &mut Blob,
) -> Result<(), AllocError>
    ensures { OnOk result (text.new ≡ text.old ++ leg_roots (chain_in outcome.now.chain)) }
{
    for below in 0..outcome.chain().heights() {
        add_height(alloc, outcome, Height(below + 1), text)?;
    }
    Ok(())
}

/// Adds the lines of the leg that goes on behind the first one, if there is one.
fn add_later(
    alloc: Global,
    outcome: Outcome<ContractCaller>,
    turn: Option<Turn>,
    text: &mut Blob,
) -> Result<(), AllocError>
    requires { (t : Turned) → turn ≡ Some t → CanTurn (chain_in outcome.chain) t }
    ensures { OnOk result (text.new ≡ text.old ++ later_roots (chain_in outcome.chain) turn) }
{
    let Some(turn) = turn else {
        return Ok(());
    };
    let crossed = cross(alloc, outcome, turn)?;
    let last = run_over(alloc, crossed.chain, crossed.supply)?;
    add_leg(alloc, &last, text)
}

/// Runs all blocks, and makes the lines of the chunks.
fn roots_of(alloc: Global, files: ChainFiles) -> Result<Blob, AllocError>
    requires sound { IsSoundGenesis files.config files.genesis }
    requires can { CanRun (loaded files) }
    ensures { IfOk result (λ text. text ≡ roots_text (loaded files)) }
{
    let begun = begin(files)?;
    let outcome = run_over(alloc, begun.chain, begun.supply)?;
    let mut text = Blob::of(Vec::new(alloc));
    add_leg(alloc, &outcome, &mut text)?;
    add_later(alloc, outcome, begun.turn, &mut text)?;
    Ok(text)
}

/// The same, or why not.
fn rooted(alloc: Global, files: ChainFiles) -> Result<Blob, Stop<Status>>
    requires sound { IsSoundGenesis files.config files.genesis }
    requires can { CanRun (loaded files) }
    ensures { Makes result (roots_text (loaded files)) }
{
    match roots_of(alloc, files) {
        Ok(text) => Ok(text),
        Err(_) => Err(Stop::Memory),
    }
}

/// The roots of the chunks of the chain that the files give.
#[inline(never)]
pub(crate) fn roots_text<S: Shelf>(
    alloc: Global,
    names: &FileNames<'_>,
    shelf: &mut S,
) -> Result<Blob, Stop<Status>>
    ensures { Follows refuses (λ text. text) (S.held shelf.old) (S.held shelf.new)
        (S.asked shelf.old) (S.asked shelf.new) (S.faults shelf.old) (S.faults shelf.new)
        result (roots_plan (names_in names.now)) }
{
    match load_course(alloc, names, shelf) {
        Ok(files) => rooted(alloc, files),
        Err(stop) => Err(stop),
    }
}
