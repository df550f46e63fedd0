//! Which step comes next.

ghost use Rattle.std.specs.Prelude.{◌≡◌, ◌<◌, length, Option, Some, None};
ghost use Rattle.nr_overlap.specs.Held.{IsSerial};
ghost use Rattle.nr_overlap.specs.Outcome.{behind};
ghost use Rattle.nr_overlap.specs.Positions.{at};
ghost use Rattle.nr_overlap.specs.Next.{IsSlowest, event_at, take_or_seal, IsNextOf};

use crate::event::Event;
use crate::phases::Phases;
use crate::position::{Position, Stage};
use crate::refusal::pair_at;
use crate::shards::Shards;
use nr_ids::{Height, ShardId};

/// The first place with the least number.
fn slowest(positions: &[Position]) -> usize
    requires { 0 < length positions.now }
    ensures { IsSlowest positions.now result }
{
    let mut best = 0;
    for i in 0..positions.len() {
        if positions[i].number < positions[best].number {
            best = i;
        }
    }
    best
}

fn take_or_seal(shard: ShardId, next: Option<(u64, u32)>) -> Event
    ensures { result ≡ take_or_seal shard.0 next }
{
    match next {
        Some((height, source)) => Event::TakeList(shard, ShardId(source), Height(height)),
        None => Event::SealChunk(shard),
    }
}

fn event_at<P: Phases>(
    phases: &P,
    shard: ShardId,
    position: &Position,
    next: Option<(u64, u32)>,
) -> Event
    requires { position.now.number < (P.rules phases.now).heights }
    ensures { result ≡ event_at (P.rules phases.now) shard.0 position.now.stage position.now.number next }
{
    let _heights = phases.heights();
    match position.stage {
        Stage::Idle => {
            if phases.present(shard, Height(position.number + 1)) {
                Event::OpenChunk(shard)
            } else {
                Event::PublishLists(shard)
            }
        }
        Stage::Opened => take_or_seal(shard, next),
        Stage::Sealed => Event::PublishLists(shard),
    }
}

/// The step of the first shard among those with the least published number.
pub(crate) fn next_of<P: Phases>(
    phases: &P,
    shards: &Shards<P::World, P::Working, P::Parcel, P::Report>,
) -> Option<Event>
    requires { IsSerial (P.rules phases.now) shards.now }
    ensures { IsNextOf (P.rules phases.now) shards.now.positions.items result }
{
    let _shards = phases.shards();
    if shards.positions.is_empty() {
        return None;
    }
    let place = slowest(&shards.positions);
    let position = &shards.positions[place];
    if position.number >= phases.heights() {
        return None;
    }
    let next = pair_at(&shards.dues[place], position.taken);
    Some(event_at(phases, ShardId(place as u32), position, next))
}

fn number_at(positions: &[Position], place: usize) -> u64
    requires { place < length positions.now }
    ensures { result ≡ (at positions.now place).number }
{
    positions[place].number
}

/// The first shard that hasn't published the last height, with how many it has published.
pub(crate) fn behind_of<P: Phases>(phases: &P, positions: &[Position]) -> Option<(ShardId, Height)>
    requires { length positions.now ≡ (P.rules phases.now).shards }
    ensures { result ≡ behind (P.rules phases.now) positions.now }
{
    let _shards = phases.shards();
    let heights = phases.heights();
    for place in 0..positions.len() {
        let number = number_at(positions, place);
        if number != heights {
            return Some((ShardId(place as u32), Height(number)));
        }
    }
    None
}
