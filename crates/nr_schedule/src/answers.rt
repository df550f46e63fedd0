//! The lines that are written of the events of a schedule.

ghost use Rattle.std.specs.Prelude.{◌≡◌, ◌<◌, ◌≤◌, ◌+◌, ◌++◌, OnOk, length};
ghost use Rattle.nr_chunk.specs.Chain.{rules_of};
ghost use Rattle.nr_chunk.specs.Runs.{chain_in};
ghost use Rattle.nr_outcome.specs.Texts.{report_text};
ghost use Rattle.nr_overlap.specs.Inside.{IsInside};
ghost use Rattle.nr_overlap.specs.Moment.{report_at};
ghost use Rattle.nr_overlap.specs.Positions.{at};
ghost use Rattle.nr_schedule.specs.Checking.{due_height, ok_line, refused_line, true_height, why_line};
ghost use Rattle.nr_schedule.specs.Driving.{HasNext, IsWithin, shown_text};

use nr_bytes::Blob;
use nr_chunk::{ChainRun, ChunkStore};
use nr_ids::{Height, ShardId};
use nr_outcome::add_lines;
use nr_overlap::{Core, Event, Phases, Why};
use nr_state::Caller;
use std::alloc::{AllocError, Global};

/// A height of a leg, counted from the genesis.
pub(crate) fn true_height<C: Caller<ChunkStore>>(chain: &ChainRun<C>, height: u64) -> u64
    requires { height ≤ length chain.now.blocks }
    ensures { result ≡ true_height (chain_in chain.now) height }
{
    chain.place(Height(height)).height.0
}

/// The same of the next due list, and 0 where none is left.
fn due_height<C: Caller<ChunkStore>>(chain: &ChainRun<C>, height: u64) -> u64
    requires { height ≤ length chain.now.blocks }
    ensures { result ≡ due_height (chain_in chain.now) height }
{
    if height == 0 {
        0
    } else {
        true_height(chain, height)
    }
}

fn add_text(text: &mut Blob, line: &str) -> Result<(), AllocError>
    ensures { OnOk result (text.new ≡ text.old ++ line.now) }
{
    text.vec_mut().extend_from_slice(line.as_bytes())
}

/// Adds the line of what was made.
pub(crate) fn add_ok(text: &mut Blob) -> Result<(), AllocError>
    ensures { OnOk result (text.new ≡ text.old ++ ok_line) }
{
    add_text(text, "ok\n")
}

/// Adds the line of a refusal.
pub(crate) fn add_refusal(
    alloc: Global,
    number: u32,
    first: u64,
    second: u64,
    text: &mut Blob,
) -> Result<(), AllocError>
    ensures { OnOk result (text.new ≡ text.old ++ refused_line number first second) }
{
    let line = format!(in alloc; "no {number} {first} {second}\n")?;
    add_text(text, &line)
}

/// Adds the line that tells why an event isn't enabled.
pub(crate) fn add_why<C: Caller<ChunkStore>>(
    alloc: Global,
    chain: &ChainRun<C>,
    why: Why,
    text: &mut Blob,
) -> Result<(), AllocError>
    requires { IsWithin (length chain.now.blocks) why }
    ensures { OnOk result (text.new ≡ text.old ++ why_line (chain_in chain.now) why) }
{
    match why {
        Why::Stage { stage } => add_refusal(alloc, 1, u64::from(stage), 0, text),
        Why::Due { height, source } => {
            let height = due_height(chain, height);
            add_refusal(alloc, 2, height, u64::from(source), text)
        }
        Why::Published { number } => {
            let number = true_height(chain, number);
            add_refusal(alloc, 3, number, 0, text)
        }
        Why::Ended { heights } => {
            let heights = true_height(chain, heights);
            add_refusal(alloc, 4, heights, 0, text)
        }
    }
}

/// Adds the chunk of a shard that just sealed it.
fn add_sealed<C: Caller<ChunkStore>>(
    alloc: Global,
    core: &Core<ChainRun<C>>,
    shard: ShardId,
    text: &mut Blob,
) -> Result<(), AllocError>
    requires inside { shard.0 < (rules_of (chain_in core.now.phases)).shards }
    requires next { (at core.now.positions shard.0).number < length core.now.phases.blocks }
    ensures { let r = rules_of (chain_in core.now.phases) in let ps = core.now.positions in
        OnOk result (text.new ≡ text.old ++ report_text (report_at r ps shard.0 ((at ps shard.0).number + 1))) }
{
    let _heights = core.phases().heights();
    let number = core.position(shard).number;
    add_lines(alloc, core.report(shard, Height(number + 1)), text)
}

/// Adds the lines of an event that was made.
pub(crate) fn add_made<C: Caller<ChunkStore>>(
    alloc: Global,
    core: &Core<ChainRun<C>>,
    event: Event,
    text: &mut Blob,
) -> Result<(), AllocError>
    requires inside { IsInside (rules_of (chain_in core.now.phases)).shards event }
    requires next { HasNext (length core.now.phases.blocks) core.now.positions event }
    ensures { let x = chain_in core.now.phases in
        OnOk result (text.new ≡ text.old ++ ok_line ++ shown_text x core.now.positions event) }
{
    add_ok(text)?;
    match event {
        Event::SealChunk(shard) => add_sealed(alloc, core, shard, text),
        Event::OpenChunk(_) => Ok(()),
        Event::TakeList(_, _, _) => Ok(()),
        Event::PublishLists(_) => Ok(()),
    }
}
