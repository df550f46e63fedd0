//! A run that a schedule drives, and what is written of it.

ghost use Rattle.std.specs.Prelude.{◌≡◌, IfOk, None, OnOk, fold};
ghost use Rattle.nr_chunk.specs.Chain.{rules_of};
ghost use Rattle.nr_chunk.specs.Runs.{chain_in};
ghost use Rattle.nr_chunk.specs.Start.{start_tokens};
ghost use Rattle.nr_course.specs.Course.{CanRun, CanTurn};
ghost use Rattle.nr_overlap.specs.Inside.{IsInside};
ghost use Rattle.nr_overlap.specs.Run.{ending};
ghost use Rattle.nr_places.specs.Totals.{plus, tally_at};
ghost use Rattle.nr_outcome.specs.Totals.{totals_of};
ghost use Rattle.nr_schedule.specs.Checking.{by_event, by_line, by_reshard, by_rest, by_step, check_text, crossed};
ghost use Rattle.nr_schedule.specs.Checking.{first_standing, in_leg, names_there, to_end};
ghost use Rattle.nr_schedule.specs.Driving.{IsDriven, standing_of};
ghost use Rattle.nr_schedule.specs.Moments.{IsMoment};

use crate::answers::{add_made, add_ok, add_refusal, add_why, true_height};
use crate::schedule::Line;
use crate::tally::tally_all;
use nr_bytes::Blob;
use nr_chunk::{ChainRun, ChunkStore, Tally};
use nr_course::{Turn, cross};
use nr_ids::Height;
use nr_outcome::{Outcome, no_tally};
use nr_overlap::{Core, Event, Phases, StepFault};
use nr_report::{Totals, write_totals};
use nr_state::Caller;
use std::alloc::{AllocError, Global};

/// A run that is driven.
#[derive(Drop)]
struct Driven<C: Caller<ChunkStore>> {
    /// The leg in force.
    core: Core<ChainRun<C>>,
    /// The change of boundaries that is left.
    turn: Option<Turn>,
    /// What the run started with in tokens.
    supply: u128,
    /// What is past of an earlier leg.
    past: Tally,
    /// What is written so far.
    text: Blob,
}

/// Makes an event, where it is enabled, and adds its lines.
fn add_event<C: Caller<ChunkStore>>(
    alloc: Global,
    driven: &mut Driven<C>,
    event: Event,
) -> Result<(), AllocError>
    requires driven { IsDriven driven.old }
    requires inside { IsInside (rules_of (chain_in driven.old.core.phases)).shards event }
    ensures driven { OnOk result (IsDriven driven.new) }
    ensures standing { OnOk result (standing_of driven.new ≡ by_event (standing_of driven.old) event) }
{
    match driven.core.step(event) {
        Ok(()) => add_made(alloc, &driven.core, event, &mut driven.text),
        Err(StepFault::NotEnabled(why)) => {
            add_why(alloc, driven.core.phases(), why, &mut driven.text)
        }
        Err(StepFault::Memory) => Err(AllocError),
    }
}

/// An event of a schedule, with the height as a leg counts it.
fn in_leg<C: Caller<ChunkStore>>(chain: &ChainRun<C>, event: Event) -> Event
    ensures { result ≡ in_leg (chain_in chain.now) event }
{
    match event {
        Event::TakeList(dest, source, height) => {
            let below = true_height(chain, 0);
            Event::TakeList(dest, source, Height(height.0.saturating_sub(below)))
        }
        Event::OpenChunk(shard) => Event::OpenChunk(shard),
        Event::SealChunk(shard) => Event::SealChunk(shard),
        Event::PublishLists(shard) => Event::PublishLists(shard),
    }
}

/// Whether there are the shards that an event names.
fn names_there(shards: u32, event: Event) -> bool
    ensures { result ≡ names_there shards event }
{
    event.is_inside(shards)
}

/// Makes a step of a schedule, where it is enabled, and adds its lines.
fn add_step<C: Caller<ChunkStore>>(
    alloc: Global,
    driven: &mut Driven<C>,
    event: Event,
) -> Result<(), AllocError>
    requires driven { IsDriven driven.old }
    ensures driven { OnOk result (IsDriven driven.new) }
    ensures standing { OnOk result (standing_of driven.new ≡ by_step (standing_of driven.old) event) }
{
    let shards = driven.core.phases().shards();
    if names_there(shards, event) {
        let step = in_leg(driven.core.phases(), event);
        add_event(alloc, driven, step)
    } else {
        add_refusal(alloc, 7, u64::from(shards), 0, &mut driven.text)
    }
}

/// Makes the next event again and again, to the end of the leg.
fn to_end<C: Caller<ChunkStore>>(alloc: Global, driven: &mut Driven<C>) -> Result<(), AllocError>
    requires driven { IsDriven driven.old }
    ensures driven { OnOk result (IsDriven driven.new) }
    ensures standing { OnOk result (standing_of driven.new ≡ to_end (standing_of driven.old)) }
{
    while let Some(event) = driven.core.next_event() {
        add_event(alloc, driven, event)?;
    }
    Ok(())
}

/// Changes the boundaries of a run that is at the end of its first leg.
fn crossed<C: Caller<ChunkStore> + Drop>(
    alloc: Global,
    core: Core<ChainRun<C>>,
    turn: Turn,
    supply: u128,
    text: Blob,
) -> Result<Driven<C>, AllocError>
    requires over { core.positions ≡ ending (rules_of (chain_in core.phases)) }
    requires can { CanTurn (chain_in core.phases) turn }
    requires supply { supply ≡ start_tokens core.phases.config core.phases.grounds.start }
    ensures driven { IfOk result IsDriven }
    ensures standing { IfOk result (λ driven. standing_of driven ≡ crossed (record {
      leg = chain_in core.phases;
      positions = core.positions;
      turn = None;
      supply = supply;
      past = driven.past;
      text = text;
    }) turn) }
{
    let outcome = Outcome::closed(alloc, core, supply)?;
    let second = cross(alloc, outcome, turn)?;
    let mut text = text;
    add_ok(&mut text)?;
    let core = Core::new(alloc, second.chain)?;
    let _ = core.phases().shards();
    Ok(Driven {
        core,
        turn: None,
        supply,
        past: second.past,
        text,
    })
}

/// Changes the boundaries, where that may come, and adds the line.
fn add_reshard<C: Caller<ChunkStore> + Drop>(
    alloc: Global,
    driven: Driven<C>,
) -> Result<Driven<C>, AllocError>
    requires { IsDriven driven }
    ensures driven { IfOk result IsDriven }
    ensures standing { IfOk result (λ after. standing_of after ≡ by_reshard (standing_of driven)) }
{
    let Driven {
        core,
        turn,
        supply,
        past,
        mut text,
    } = driven;
    match turn {
        None => {
            add_refusal(alloc, 6, 0, 0, &mut text)?;
            Ok(Driven {
                core,
                turn: None,
                supply,
                past,
                text,
            })
        }
        Some(turn) => match core.behind() {
            Some((shard, height)) => {
                let height = true_height(core.phases(), height.0);
                add_refusal(alloc, 5, u64::from(shard.0), height, &mut text)?;
                Ok(Driven {
                    core,
                    turn: Some(turn),
                    supply,
                    past,
                    text,
                })
            }
            None => {
                let after = crossed(alloc, core, turn, supply, text)?;
                Ok(after)
            }
        },
    }
}

/// Makes the next event again and again, to the end of the run.
fn add_rest<C: Caller<ChunkStore> + Drop>(
    alloc: Global,
    driven: Driven<C>,
) -> Result<Driven<C>, AllocError>
    requires { IsDriven driven }
    ensures driven { IfOk result IsDriven }
    ensures standing { IfOk result (λ after. standing_of after ≡ by_rest (standing_of driven)) }
{
    let mut driven = driven;
    to_end(alloc, &mut driven)?;
    if driven.turn.is_none() {
        return Ok(driven);
    }
    let mut after = add_reshard(alloc, driven)?;
    to_end(alloc, &mut after)?;
    Ok(after)
}

fn add_line<C: Caller<ChunkStore> + Drop>(
    alloc: Global,
    driven: Driven<C>,
    line: Line,
) -> Result<Driven<C>, AllocError>
    requires { IsDriven driven }
    ensures driven { IfOk result IsDriven }
    ensures standing { IfOk result (λ after. standing_of after ≡ by_line (standing_of driven) line) }
{
    match line {
        Line::Step(event) => {
            let mut driven = driven;
            add_step(alloc, &mut driven, event)?;
            Ok(driven)
        }
        Line::Rest => {
            let driven = add_rest(alloc, driven)?;
            Ok(driven)
        }
        Line::Reshard => {
            let driven = add_reshard(alloc, driven)?;
            Ok(driven)
        }
    }
}

/// Makes of each line what it asks for, one after another.
fn add_lines<C: Caller<ChunkStore> + Drop>(
    alloc: Global,
    first: Driven<C>,
    lines: &[Line],
) -> Result<Driven<C>, AllocError>
    requires { IsDriven first }
    ensures driven { IfOk result IsDriven }
    ensures standing { IfOk result (λ after. standing_of after ≡ fold by_line (standing_of first) lines.now) }
{
    let mut driven = first;
    for line in lines {
        driven = add_line(alloc, driven, *line)?;
    }
    Ok(driven)
}

/// A run before the first line.
fn driven_from<C: Caller<ChunkStore> + Drop>(
    alloc: Global,
    first: ChainRun<C>,
    turn: Option<Turn>,
    supply: u128,
) -> Result<Driven<C>, AllocError>
    requires can { CanRun (record { first = chain_in first; turn = turn }) }
    requires supply { supply ≡ start_tokens first.config first.grounds.start }
    ensures driven { IfOk result IsDriven }
    ensures standing { IfOk result (λ driven. standing_of driven
        ≡ first_standing (record { first = chain_in first; turn = turn })) }
{
    let core = Core::new(alloc, first)?;
    let _ = core.phases().shards();
    Ok(Driven {
        core,
        turn,
        supply,
        past: no_tally(),
        text: Blob::of(Vec::new(alloc)),
    })
}

/// The totals of a run at a moment of its leg in force.
fn totals<C: Caller<ChunkStore>>(
    alloc: Global,
    core: &Core<ChainRun<C>>,
    supply: u128,
    past: Tally,
) -> Result<Totals, AllocError>
    requires { IsMoment core.now }
    ensures { IfOk result (λ totals. totals
        ≡ totals_of supply (plus past (tally_at (chain_in core.now.phases) core.now.positions))) }
{
    let tally = tally_all(alloc, core, past)?;
    let places = tally.places;
    Ok(Totals {
        supply,
        accounts: tally.accounts,
        receipts: tally.receipts,
        burnt: tally.burnt,
        places,
    })
}

/// What a schedule over a run has written: the lines of its events, and the totals where they lead. The run has one
/// leg, or two where boundaries change; the supply is what it starts with in tokens.
///
/// # Errors
///
/// Where memory runs out. It counts as that where a total doesn't fit its number, and, over a change of boundaries,
/// where a sum or a count of a report doesn't.
pub fn check<C: Caller<ChunkStore> + Drop>(
    alloc: Global,
    first: ChainRun<C>,
    turn: Option<Turn>,
    supply: u128,
    lines: &[Line],
) -> Result<Blob, AllocError>
    requires can { CanRun (record { first = chain_in first; turn = turn }) }
    requires supply { supply ≡ start_tokens first.config first.grounds.start }
    ensures { IfOk result (λ text. text ≡ check_text (record { first = chain_in first; turn = turn }) lines.now) }
{
    let driven = driven_from(alloc, first, turn, supply)?;
    let last = add_lines(alloc, driven, lines)?;
    let totals = totals(alloc, &last.core, last.supply, last.past)?;
    let mut text = last.text;
    write_totals(alloc, &totals, &mut text)?;
    Ok(text)
}
