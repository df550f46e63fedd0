//! The steps of a shard, and why one is not enabled.

ghost use Rattle.std.specs.Prelude.{◌≡◌, ◌<◌, ◌↔◌, IsTrue};
ghost use Rattle.nr_overlap.specs.Inside.{actor, IsInside};

use nr_ids::{Height, ShardId};

/// A step of one shard.
#[derive(Clone, Copy, Debug, PartialEq, Eq)]
pub enum Event {
    /// Opens the shard's next chunk. It fits stage 0 where the chunk is there.
    OpenChunk(ShardId),
    /// The first shard takes the list that the second sealed for it at the height. It fits stage 1.
    TakeList(ShardId, ShardId, Height),
    /// Seals the shard's open chunk. It fits stage 1.
    SealChunk(ShardId),
    /// Publishes the shard's next height. It fits stage 2, and stage 0 where the next chunk is missing.
    PublishLists(ShardId),
}

impl Event {
    /// The shard that steps.
    pub(crate) fn actor(self) -> ShardId
        ensures { result.0 ≡ actor self }
    {
        match self {
            Event::OpenChunk(shard) => shard,
            Event::TakeList(shard, _, _) => shard,
            Event::SealChunk(shard) => shard,
            Event::PublishLists(shard) => shard,
        }
    }

    /// Whether each shard that it names is one of so many.
    pub fn is_inside(self, shards: u32) -> bool
        ensures { IsTrue result ↔ IsInside shards self }
    {
        match self {
            Event::OpenChunk(shard) => shard.0 < shards,
            Event::TakeList(dest, source, _) => dest.0 < shards && source.0 < shards,
            Event::SealChunk(shard) => shard.0 < shards,
            Event::PublishLists(shard) => shard.0 < shards,
        }
    }
}

/// Why a step is not enabled: the first of these that is so.
#[derive(Clone, Copy, Debug, PartialEq, Eq)]
pub enum Why {
    /// The shard has published all heights, which are so many.
    Ended { heights: u64 },
    /// The step doesn't fit the shard's stage: 0 idle, 1 opened, 2 sealed.
    Stage { stage: u32 },
    /// The list of a Take isn't the next due one, or a Seal has one left. This names the next due one, or has two zeros
    /// where none is left.
    Due { height: u64, source: u32 },
    /// The list of a Take isn't published. Its source has published the heights up to this number.
    Published { number: u64 },
}

/// Why a step was not made.
#[derive(Clone, Copy, Debug, PartialEq, Eq)]
pub enum StepFault {
    /// It is not enabled, and nothing was changed.
    NotEnabled(Why),
    /// There was no memory for it or for an earlier step.
    Memory,
}
