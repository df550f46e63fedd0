//! The run of a chain to its end, and its report. Functions that move a chain are not inlined: each has room for
//! several chains in its frame, and most of them have returned before a chunk is run.

ghost use Rattle.std.specs.Prelude.{◌≡◌, ◌++◌, Some, IfOk};
ghost use Rattle.nr_blocks.specs.Genesis.{IsSoundGenesis};
ghost use Rattle.nr_chunk.specs.Chain.{rules_of};
ghost use Rattle.nr_chunk.specs.Runs.{chain_in};
ghost use Rattle.nr_chunk.specs.Start.{start_tokens};
ghost use Rattle.nr_course.specs.Course.{CanRun, CanTurn};
ghost use Rattle.nr_course.specs.Texts.{course_text, leg_text, legs_by};
ghost use Rattle.nr_course.specs.Totals.{tally_by};
ghost use Rattle.nr_course.specs.declared.turn.Turn.{Turn as Turned};
ghost use Rattle.nr_outcome.specs.Totals.{totals_at, totals_of};
ghost use Rattle.nr_overlap.specs.Run.{ending, opening};
ghost use Rattle.nr_report.specs.Lines.{totals_text};
ghost use Rattle.nr_top.specs.Moments.{IsMoment, chain_of};
ghost use Rattle.nr_top.specs.Run.{loaded};

use crate::chain::begin;
use nr_bytes::Blob;
use nr_chainfiles::ChainFiles;
use nr_chunk::ChainRun;
use nr_contract::ContractCaller;
use nr_course::{Turn, cross, totals_over};
use nr_ids::Height;
use nr_outcome::{Outcome, joined};
use nr_overlap::{Core, Phases, run_serially};
use nr_report::write_totals;
use std::alloc::{AllocError, Global};

/// A chain at work.
pub(crate) type Run = Core<ChainRun<ContractCaller>>;

/// A chain at work, before its first chunk.
#[inline(never)]
pub(crate) fn opened(alloc: Global, chain: ChainRun<ContractCaller>) -> Result<Run, AllocError>
    ensures chain { IfOk result (λ core. core.phases ≡ chain) }
    ensures moment { IfOk result IsMoment }
    ensures first { IfOk result (λ core. core.positions ≡ opening (rules_of (chain_of core))) }
{
    let core = Core::new(alloc, chain)?;
    let _ = core.phases().shards();
    Ok(core)
}

/// A chain that was run to its end, all of whose tokens at first are the supply.
///
/// # Errors
///
/// Where memory runs out.
#[inline(never)]
pub(crate) fn run_over(
    alloc: Global,
    chain: ChainRun<ContractCaller>,
    supply: u128,
) -> Result<Outcome<ContractCaller>, AllocError>
    requires { supply ≡ start_tokens chain.config chain.grounds.start }
    ensures { IfOk result (λ outcome. outcome.chain ≡ chain) }
{
    let mut core = opened(alloc, chain)?;
    run_serially(&mut core)?;
    Outcome::closed(alloc, core, supply)
}

/// The text of all chunks of a leg.
fn leg_text(alloc: Global, outcome: &Outcome<ContractCaller>) -> Result<Blob, AllocError>
    ensures { IfOk result (λ text. text ≡ leg_text (chain_in outcome.now.chain)) }
{
    let heights = outcome.chain().heights();
    let text = outcome.text(alloc, Height(0), Height(heights))?;
    Ok(text)
}

/// The report of a run of one leg.
fn one_leg(alloc: Global, outcome: &Outcome<ContractCaller>) -> Result<Blob, AllocError>
    ensures { let x = chain_in outcome.now.chain in IfOk result (λ text. text
        ≡ leg_text x ++ totals_text (totals_at x (ending (rules_of x)))) }
{
    let chunks = leg_text(alloc, outcome)?;
    let end = outcome.totals_text(alloc)?;
    let text = joined(chunks, &end)?;
    Ok(text)
}

/// The report of a run that goes on behind its first leg.
#[inline(never)]
fn both_legs(
    alloc: Global,
    outcome: Outcome<ContractCaller>,
    turn: Turn,
    supply: u128,
) -> Result<Blob, AllocError>
    requires { CanTurn (chain_in outcome.chain) turn }
    ensures { let x = chain_in outcome.chain in IfOk result (λ text. text
        ≡ legs_by x (Some turn) ++ totals_text (totals_of supply (tally_by x (Some turn)))) }
{
    let first = leg_text(alloc, &outcome)?;
    let crossed = cross(alloc, outcome, turn)?;
    let past = crossed.past;
    let last = run_over(alloc, crossed.chain, crossed.supply)?;
    let more = leg_text(alloc, &last)?;
    let mut text = joined(first, &more)?;
    let totals = totals_over(alloc, &last, supply, past)?;
    write_totals(alloc, &totals, &mut text)?;
    Ok(text)
}

/// The report of a run whose first leg is over.
#[inline(never)]
fn reported(
    alloc: Global,
    outcome: Outcome<ContractCaller>,
    turn: Option<Turn>,
    supply: u128,
) -> Result<Blob, AllocError>
    requires can { (t : Turned) → turn ≡ Some t → CanTurn (chain_in outcome.chain) t }
    requires supply { supply ≡ start_tokens outcome.chain.config outcome.chain.grounds.start }
    ensures { let x = chain_in outcome.chain in IfOk result (λ text. text
        ≡ legs_by x turn ++ totals_text (totals_of supply (tally_by x turn))) }
{
    match turn {
        None => one_leg(alloc, &outcome),
        Some(turn) => both_legs(alloc, outcome, turn, supply),
    }
}

/// The report of the run that files give: its chunks by height and then shard, and the totals.
///
/// # Errors
///
/// Where memory runs out. It counts as that where a total doesn't fit its number.
#[inline(never)]
pub(crate) fn report(alloc: Global, files: ChainFiles) -> Result<Blob, AllocError>
    requires sound { IsSoundGenesis files.config files.genesis }
    requires can { CanRun (loaded files) }
    ensures { IfOk result (λ text. text ≡ course_text (loaded files)) }
{
    let begun = begin(files)?;
    let outcome = run_over(alloc, begun.chain, begun.supply)?;
    let text = reported(alloc, outcome, begun.turn, begun.supply)?;
    Ok(text)
}
