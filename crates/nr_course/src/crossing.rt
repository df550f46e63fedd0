//! A run that goes on under other boundaries where a chain is over.

ghost use Rattle.std.specs.List.{AllByRecursion};
ghost use Rattle.std.specs.Prelude.{◌≡◌, ◌+◌, IfOk, map};
ghost use Rattle.nr_chunk.specs.Chain.{Chain, IsChain, rules_of};
ghost use Rattle.nr_chunk.specs.Runs.{chain_in};
ghost use Rattle.nr_chunk.specs.Start.{start_tokens};
ghost use Rattle.nr_chunk.specs.Starts.{IsSoundStart, start_of};
ghost use Rattle.nr_chunk.specs.declared.start.FirstState.TheVariants as first;
ghost use Rattle.nr_course.specs.Course.{CanTurn, second};
ghost use Rattle.nr_course.specs.Totals.{past_of};
ghost use Rattle.nr_course.specs.declared.turn.Turn.{Turn as Turns};
ghost use Rattle.nr_legs.specs.Legs.{CanGoOn, cut_start, left_of};
ghost use Rattle.nr_outcome.specs.Reports.{AreReports};
ghost use Rattle.nr_overlap.specs.Outcome.{last_worlds, lists_left};
ghost use Rattle.nr_overlap.specs.Run.{ending};
ghost use Rattle.nr_places.specs.Totals.{tally_at};
ghost use Rattle.nr_state.specs.FromEntries.{AreWholeEntries, world_from};

use crate::summing::past_in;
use crate::turn::Turn;
use nr_bytes::List;
use nr_chunk::{ChainRun, ChunkStore, ChunkWorld, Resumed, Tally};
use nr_cut::carry;
use nr_layout::Layout;
use nr_outcome::{Left, Outcome, Parts, Reports};
use nr_overlap::Phases;
use nr_records::Receipt;
use nr_split::split_worlds;
use nr_state::{Caller, Entry};
use std::alloc::{AllocError, Global};

/// What goes on where a chain was over.
#[derive(Drop)]
pub struct Crossed<C: Caller<ChunkStore>> {
    /// The chain that goes on.
    pub chain: ChainRun<C>,
    /// The reports of the one that was over.
    pub reports: Reports,
    /// What is past of it.
    pub past: Tally,
    /// All tokens of the start of the chain that goes on.
    pub supply: u128,
}

/// The trie entries of each world, in order.
fn entries_of(alloc: Global, worlds: &[ChunkWorld]) -> Result<List<List<Entry>>, AllocError>
    ensures whole { IfOk result (AllByRecursion AreWholeEntries) }
    ensures worlds { IfOk result (λ found. map world_from found ≡ map (λ w. w.world) worlds.now) }
{
    let mut found = Vec::new(alloc);
    for world in worlds {
        found.push(world.entries()?)?;
    }
    Ok(List::of(found))
}

/// The lists that no chunk took, in order.
fn lists_of(alloc: Global, left: Left) -> Result<List<List<Receipt>>, AllocError>
    ensures { IfOk result (λ lists. lists ≡ map left_of left) }
{
    let mut lists = Vec::new(alloc);
    for (_, _, _, list) in left.into_inner() {
        lists.push(list)?;
    }
    Ok(List::of(lists))
}

/// From what a run starts that goes on with these worlds and lists, behind so many heights.
fn resumed(
    alloc: Global,
    worlds: &[ChunkWorld],
    left: Left,
    layout: Layout,
    below: u64,
) -> Result<Resumed, AllocError>
    ensures { (x : Chain) → IsChain x → CanGoOn x → worlds.now ≡ last_worlds (rules_of x)
        → left ≡ lists_left (rules_of x) → below ≡ x.start.below + (rules_of x).heights
        → IfOk result (λ resumed. IsSoundStart x.config (first.Resumed resumed)
        × (start_of (first.Resumed resumed) ≡ cut_start x layout)) }
{
    let entries = entries_of(alloc, worlds)?;
    let worlds = split_worlds(alloc, &entries, &layout)?;
    let lists = lists_of(alloc, left)?;
    let carried = carry(alloc, lists, &layout)?;
    Ok(Resumed {
        layout,
        below,
        worlds,
        carried,
    })
}

/// The chain that goes on, where this one is over with these worlds and lists.
fn behind<C: Caller<ChunkStore> + Drop>(
    alloc: Global,
    chain: ChainRun<C>,
    worlds: List<ChunkWorld>,
    left: Left,
    turn: Turn,
) -> Result<ChainRun<C>, AllocError>
    requires can { CanTurn (chain_in chain) turn }
    requires worlds { worlds ≡ last_worlds (rules_of (chain_in chain)) }
    requires left { left ≡ lists_left (rules_of (chain_in chain)) }
    ensures { IfOk result (λ next. chain_in next ≡ second (chain_in chain) turn) }
{
    let _ = chain.shards();
    let below = chain.heights();
    let Turn { layout, blocks } = turn;
    let start = resumed(alloc, worlds.inner(), left, layout, below)?;
    Ok(ChainRun::resume(chain.into_parts(), start, blocks))
}

/// All tokens of the start of what goes on where a chain is over with this tally.
fn tokens_of<C: Caller<ChunkStore>>(chain: &ChainRun<C>, tally: &Tally) -> u128
    requires { tally.now ≡ tally_at (chain_in chain.now) (ending (rules_of (chain_in chain.now))) }
    ensures { (turn : Turns) → CanTurn (chain_in chain.now) turn
        → result ≡ start_tokens chain.now.config (cut_start (chain_in chain.now) turn.layout) }
{
    let _ = chain.shards();
    tally.accounts + tally.receipts
}

/// Goes on under other boundaries where a chain is over.
///
/// # Errors
///
/// Where memory runs out. A sum that doesn't fit its number counts as that, and so do the counts of a report. All is
/// let go.
pub fn cross<C: Caller<ChunkStore> + Drop>(
    alloc: Global,
    outcome: Outcome<C>,
    turn: Turn,
) -> Result<Crossed<C>, AllocError>
    requires { CanTurn (chain_in outcome.chain) turn }
    ensures chain { IfOk result (λ crossed. chain_in crossed.chain ≡ second (chain_in outcome.chain) turn) }
    ensures reports { IfOk result (λ crossed. AreReports (rules_of (chain_in outcome.chain)) crossed.reports) }
    ensures past { IfOk result (λ crossed. crossed.past ≡ past_of (chain_in outcome.chain)) }
    ensures supply { IfOk result (λ crossed. crossed.supply
        ≡ start_tokens crossed.chain.config crossed.chain.grounds.start) }
{
    let tally = outcome.tally(alloc)?;
    let supply = tokens_of(outcome.chain(), &tally);
    let past = past_in(tally);
    let Parts {
        chain,
        reports,
        worlds,
        left,
    } = outcome.into_parts();
    let chain = behind(alloc, chain, worlds, left, turn)?;
    Ok(Crossed {
        chain,
        reports,
        past,
        supply,
    })
}
