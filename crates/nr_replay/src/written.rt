//! What is written of a chain that threads ran.

ghost use Rattle.std.specs.Prelude.{◌≡◌, ◌++◌, Some, IfOk};
ghost use Rattle.std.specs.Thread.{IsSend};
ghost use Rattle.nr_blocks.specs.Genesis.{IsSoundGenesis};
ghost use Rattle.nr_chunk.specs.Chain.{rules_of};
ghost use Rattle.nr_chunk.specs.Start.{start_tokens};
ghost use Rattle.nr_course.specs.Course.{CanRun, CanTurn};
ghost use Rattle.nr_course.specs.Texts.{course_text, leg_text, legs_by};
ghost use Rattle.nr_course.specs.Totals.{tally_by};
ghost use Rattle.nr_course.specs.declared.turn.Turn.{Turn as Turned};
ghost use Rattle.nr_outcome.specs.Texts.{count_to};
ghost use Rattle.nr_outcome.specs.Totals.{totals_at, totals_of};
ghost use Rattle.nr_overlap.specs.Moment.{report_at};
ghost use Rattle.nr_overlap.specs.Run.{ending};
ghost use Rattle.nr_report.specs.Lines.{totals_text};
ghost use Rattle.nr_top.specs.Generated.{generated_text};
ghost use Rattle.nr_top.specs.Run.{chain, loaded};
ghost use Rattle.nr_top.specs.Works.{CanWork, work_text};
ghost use Rattle.nr_words.specs.Words.{CanGenerate};
ghost use Rattle.nr_replay.specs.Chains.{chain_in};

use crate::hashing::Hashing;
use crate::text::chunks_text;
use nr_blocks::{Block, Genesis};
use nr_bytes::{Blob, List};
use nr_chainfiles::ChainFiles;
use nr_chunk::ChainRun;
use nr_config::Config;
use nr_contract::ContractCaller;
use nr_course::{Turn, cross, totals_over};
use nr_exchange::Serial;
use nr_gen::generate;
use nr_outcome::{Outcome, joined};
use nr_overlap::Phases;
use nr_report::write_totals;
use nr_settle::{Unwatched, Watch, Watched, run_to_end};
use nr_top::{Work, begin, first_lines};
use nr_wasmtypes::FuncBody;
use nr_workers::Gate;
use std::alloc::{AllocError, Global};
use std::sync::Wait;
use std::thread::Threads;

/// A chain that was run to its end, the text of its chunks, and who was shown its reports.
#[derive(Drop)]
struct Leg<W: Drop> {
    outcome: Outcome<ContractCaller>,
    text: Blob,
    watch: W,
}

/// How many chunks a run has. A number that doesn't fit counts as want of memory.
fn count_of(outcome: &Outcome<ContractCaller>) -> Result<u64, AllocError>
    ensures { let r = rules_of (chain_in outcome.now.chain)
        in IfOk result (λ count. count ≡ count_to r.shards (report_at r (ending r)) r.heights) }
{
    outcome.chunk_count().ok_or(AllocError)
}

fn is_send<T: Send>()
    ensures { IsSend T.row }
{}

/// Runs a chain to its end by threads, and writes its chunks.
fn leg_of<R: Threads + Wait + Sync, G: Gate + Sync, W: Watch + Drop + Send + Sync>(
    rt: &R,
    alloc: Global,
    gate: &G,
    chain: ChainRun<ContractCaller>,
    supply: u128,
    watch: W,
) -> Result<Leg<W>, AllocError>
    requires { supply ≡ start_tokens chain.config chain.grounds.start }
    ensures chain { IfOk result (λ leg. leg.outcome.chain ≡ chain) }
    ensures text { IfOk result (λ leg. leg.text ≡ leg_text (chain_in chain)) }
{
    is_send::<List<FuncBody>>();
    let run = Serial(Watched { chain, watch });
    let heights = run.0.heights();
    let (outcome, watch) = run_to_end(rt, alloc, gate, run, supply)?;
    let text = chunks_text(rt, alloc, outcome.reports(), heights)?;
    Ok(Leg {
        outcome,
        text,
        watch,
    })
}

/// The report of a run of one leg, of which this is the text of the chunks.
fn one_leg(
    alloc: Global,
    outcome: &Outcome<ContractCaller>,
    chunks: Blob,
) -> Result<Blob, AllocError>
    requires { chunks ≡ leg_text (chain_in outcome.now.chain) }
    ensures { let x = chain_in outcome.now.chain in IfOk result (λ text. text
        ≡ leg_text x ++ totals_text (totals_at x (ending (rules_of x)))) }
{
    let end = outcome.totals_text(alloc)?;
    let text = joined(chunks, &end)?;
    Ok(text)
}

/// The report of a run that goes on behind its first leg, of which this is the text of the chunks. All threads of the
/// first leg have ended.
fn both_legs<R: Threads + Wait + Sync, G: Gate + Sync>(
    rt: &R,
    alloc: Global,
    gate: &G,
    outcome: Outcome<ContractCaller>,
    first: Blob,
    turn: Turn,
    supply: u128,
) -> Result<Blob, AllocError>
    requires first { first ≡ leg_text (chain_in outcome.chain) }
    requires can { CanTurn (chain_in outcome.chain) turn }
    ensures { let x = chain_in outcome.chain in IfOk result (λ text. text
        ≡ legs_by x (Some turn) ++ totals_text (totals_of supply (tally_by x (Some turn)))) }
{
    let crossed = cross(alloc, outcome, turn)?;
    let past = crossed.past;
    let last = leg_of(rt, alloc, gate, crossed.chain, crossed.supply, Unwatched)?;
    let mut text = joined(first, &last.text)?;
    let totals = totals_over(alloc, &last.outcome, supply, past)?;
    write_totals(alloc, &totals, &mut text)?;
    Ok(text)
}

/// The report of a run whose first leg is over.
fn reported<R: Threads + Wait + Sync, G: Gate + Sync>(
    rt: &R,
    alloc: Global,
    gate: &G,
    leg: Leg<Unwatched>,
    turn: Option<Turn>,
    supply: u128,
) -> Result<Blob, AllocError>
    requires first { leg.text ≡ leg_text (chain_in leg.outcome.chain) }
    requires can { (t : Turned) → turn ≡ Some t → CanTurn (chain_in leg.outcome.chain) t }
    requires supply { supply ≡ start_tokens leg.outcome.chain.config leg.outcome.chain.grounds.start }
    ensures { let x = chain_in leg.outcome.chain in IfOk result (λ text. text
        ≡ legs_by x turn ++ totals_text (totals_of supply (tally_by x turn))) }
{
    let Leg {
        outcome,
        text,
        watch: _,
    } = leg;
    match turn {
        None => one_leg(alloc, &outcome, text),
        Some(turn) => both_legs(rt, alloc, gate, outcome, text, turn, supply),
    }
}

/// The report of the run that files give: its chunks by height and then shard, and the totals.
fn report_of<R: Threads + Wait + Sync, G: Gate + Sync>(
    rt: &R,
    alloc: Global,
    gate: &G,
    files: ChainFiles,
) -> Result<Blob, AllocError>
    requires sound { IsSoundGenesis files.config files.genesis }
    requires can { CanRun (loaded files) }
    ensures { IfOk result (λ text. text ≡ course_text (loaded files)) }
{
    let begun = begin(files)?;
    let leg = leg_of(rt, alloc, gate, begun.chain, begun.supply, Unwatched)?;
    let text = reported(rt, alloc, gate, leg, begun.turn, begun.supply)?;
    Ok(text)
}

/// A generated chain before its first chunk, and all its tokens at first.
fn begin_generated(
    config: Config,
    genesis: Genesis,
    blocks: List<Block>,
) -> (ChainRun<ContractCaller>, u128)
    requires { IsSoundGenesis config genesis }
    ensures chain { chain_in result.0 ≡ chain config genesis blocks }
    ensures supply { result.1 ≡ start_tokens result.0.config result.0.grounds.start }
{
    let supply = genesis.supply;
    let caller = ContractCaller::new(&config);
    (ChainRun::new(config, genesis, blocks, caller), supply)
}

/// What is written of a generated chain: the numbers that generate it, how many chunks were sealed, the digest of its
/// report, and the totals.
fn summary_of<R: Threads + Wait + Sync, G: Gate + Sync>(
    rt: &R,
    alloc: Global,
    gate: &G,
    start: u64,
    shards: u32,
    blocks: u64,
) -> Result<Blob, AllocError>
    requires { CanGenerate shards blocks }
    ensures { IfOk result (λ text. text ≡ generated_text start shards blocks) }
{
    let (genesis, made) = generate(alloc, start, shards, blocks)?;
    let hashing = Hashing::new(alloc, shards, made.inner())?;
    let (chain, supply) = begin_generated(Config::generated(), genesis, made);
    let leg = leg_of(rt, alloc, gate, chain, supply, hashing)?;
    let chunks = count_of(&leg.outcome)?;
    let end = leg.outcome.totals_text(alloc)?;
    let hash = leg.watch.end(&leg.text, &end);
    let first = first_lines(alloc, start, shards, blocks, chunks, &hash)?;
    let text = joined(first, &end)?;
    Ok(text)
}

/// Runs a chain to its end by threads, and makes the text that is written of it.
pub(crate) fn text_of<R: Threads + Wait + Sync, G: Gate + Sync>(
    rt: &R,
    alloc: Global,
    gate: &G,
    work: Work,
) -> Result<Blob, AllocError>
    requires { CanWork work }
    ensures { IfOk result (λ text. text ≡ work_text work) }
{
    match work {
        Work::Chain(files) => report_of(rt, alloc, gate, files),
        Work::Generated {
            start,
            shards,
            blocks,
        } => summary_of(rt, alloc, gate, start, shards, blocks),
    }
}
