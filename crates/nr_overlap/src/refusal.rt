//! Why a step is not enabled.

ghost use Rattle.std.specs.Prelude.{◌≡◌, ◌<◌, ◌+◌, length, slice_get, Option, Some, None};
ghost use Rattle.nr_overlap.specs.Held.{IsSerial};
ghost use Rattle.nr_overlap.specs.Inside.{IsInside, actor};
ghost use Rattle.nr_overlap.specs.Moves.{refusal, fits, list_refusal, list_refusal_by, wrong_list, named};

use crate::event::{Event, Why};
use crate::phases::Phases;
use crate::position::{Position, Stage};
use crate::shards::Shards;
use nr_ids::{Height, ShardId};

fn named(pair: Option<(u64, u32)>) -> Why
    ensures { result ≡ named pair }
{
    match pair {
        None => Why::Due {
            height: 0,
            source: 0,
        },
        Some((height, source)) => Why::Due { height, source },
    }
}

/// Why a list is not taken, where this pair is the next due one and the source has published so many heights.
fn wrong_list(
    pair: Option<(u64, u32)>,
    height: Height,
    source: ShardId,
    position: &Position,
) -> Option<Why>
    ensures { result ≡ wrong_list pair height.0 source.0 position.now }
{
    if pair != Some((height.0, source.0)) {
        return Some(named(pair));
    }
    if position.number < height.0 {
        return Some(Why::Published {
            number: position.number,
        });
    }
    None
}

/// Whether the event fits the stage.
fn fits<P: Phases>(phases: &P, shard: ShardId, position: &Position, event: Event) -> bool
    requires { position.now.number < (P.rules phases.now).heights }
    ensures { result ≡ fits (P.rules phases.now) shard.0 position.now event }
{
    let _heights = phases.heights();
    let present = phases.present(shard, Height(position.number + 1));
    match event {
        Event::OpenChunk(_) => matches!(position.stage, Stage::Idle) && present,
        Event::TakeList(_, _, _) => matches!(position.stage, Stage::Opened),
        Event::SealChunk(_) => matches!(position.stage, Stage::Opened),
        Event::PublishLists(_) => match position.stage {
            Stage::Idle => !present,
            Stage::Opened => false,
            Stage::Sealed => true,
        },
    }
}

/// Why the lists don't allow a step, where this pair is the next due one.
fn list_refusal(positions: &[Position], next: Option<(u64, u32)>, event: Event) -> Option<Why>
    requires { IsInside (length positions.now) event }
    ensures { result ≡ list_refusal_by positions.now next event }
{
    match event {
        Event::OpenChunk(_) => None,
        Event::TakeList(_, source, height) => {
            wrong_list(next, height, source, &positions[source.0 as usize])
        }
        Event::SealChunk(_) => match next {
            None => None,
            Some(pair) => Some(named(Some(pair))),
        },
        Event::PublishLists(_) => None,
    }
}

pub(crate) fn pair_at(due: &[(u64, u32)], taken: usize) -> Option<(u64, u32)>
    ensures { result ≡ slice_get due.now taken }
{
    due.get(taken).copied()
}

/// Why a step is not enabled, or nothing where it is.
pub(crate) fn refusal<P: Phases>(
    phases: &P,
    shards: &Shards<P::World, P::Working, P::Parcel, P::Report>,
    event: Event,
) -> Option<Why>
    requires serial { IsSerial (P.rules phases.now) shards.now }
    requires inside { IsInside (P.rules phases.now).shards event }
    ensures { result ≡ refusal (P.rules phases.now) shards.now.positions.items event }
{
    let shard = event.actor();
    let place = shard.0 as usize;
    let position = &shards.positions[place];
    let heights = phases.heights();
    if heights <= position.number {
        return Some(Why::Ended { heights });
    }
    if !fits(phases, shard, position, event) {
        return Some(Why::Stage {
            stage: position.stage.number(),
        });
    }
    let next = pair_at(&shards.dues[place], position.taken);
    list_refusal(&shards.positions, next, event)
}
