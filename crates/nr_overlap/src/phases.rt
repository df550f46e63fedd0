//! The phases of a chunk as a trait.

ghost use Rattle.std.specs.Prelude.{◌≡◌, ℕ, ◌<◌, IfOk, OnOk};
ghost use Rattle.nr_overlap.specs.Rules.{Rules};
ghost use Rattle.nr_overlap.specs.Lawful.{AreLawful};

use nr_bytes::List;
use nr_ids::{Height, ShardId};
use std::alloc::{AllocError, Global};

/// The phases of a chunk, over anything that has chunks. Each is a function of its arguments alone: the ghost record
/// `rules` has them as plain functions.
///
/// A run has `shards` shards, numbered from 0, and `heights` blocks, at heights from 1. Height 0 is the genesis. A
/// block has a chunk of a shard or not. A chunk that is there is opened on the world of its shard, takes the lists that
/// are due to it one by one, and is sealed. Whoever calls a phase has to know that it may be called: in the serial run
/// that is so, by the law.
pub trait Phases {
    /// What a shard has between its chunks.
    type World: Drop + Send;

    /// A chunk at work, from its opening to its seal. It knows its shard and height.
    type Working: Drop + Send;

    /// What a chunk sends to one shard.
    type Parcel: Drop + Send;

    /// What a chunk did.
    type Report: Drop + Send;

    /// What is known of the phases of a run.
    ghost is_run: { Self → Type 0 };

    /// What the phases do.
    ghost rules: { Self → Rules Self.World Self.Working Self.Parcel Self.Report };

    /// What opening a chunk needs of its shard, height and world.
    ghost can_open: { Self → ℕ → ℕ → Self.World → Type 0 };

    /// What taking a list needs of the working state and the list.
    ghost can_take: { Self → Self.Working → Self.Parcel → Type 0 };

    /// What sealing needs of the working state.
    ghost can_seal: { Self → Self.Working → Type 0 };

    /// How many shards there are.
    fn shards(&self) -> u32
        ensures count { result ≡ (rules self.now).shards }
        ensures run { is_run self.now };

    /// How many blocks there are. The last has this height.
    fn heights(&self) -> u64
        ensures { result ≡ (rules self.now).heights };

    /// Whether the block of this height has a chunk of the shard.
    fn present(&self, shard: ShardId, height: Height) -> bool
        ensures { result ≡ (rules self.now).present shard.0 height.0 };

    /// The world of a shard before its first chunk.
    ///
    /// # Errors
    ///
    /// Where there is no memory for it.
    fn begin(&self, alloc: Global, shard: ShardId) -> Result<Self::World, AllocError>
        requires { shard.0 < (rules self.now).shards }
        ensures { IfOk result (λ world. world ≡ (rules self.now).begins shard.0) };

    /// Opens the chunk of a shard at a height.
    ///
    /// # Errors
    ///
    /// Where there is no memory for it. The world is gone.
    fn open_chunk(
        &self,
        alloc: Global,
        shard: ShardId,
        height: Height,
        world: Self::World,
    ) -> Result<Self::Working, AllocError>
        requires { can_open self.now shard.0 height.0 world }
        ensures { IfOk result (λ working. working ≡ (rules self.now).opens shard.0 height.0 world) };

    /// Takes a list that was sent to the shard.
    ///
    /// # Errors
    ///
    /// Where there is no memory for it. Nothing is said of the working state.
    fn take_list(
        &self,
        alloc: Global,
        working: &mut Self::Working,
        list: Self::Parcel,
    ) -> Result<(), AllocError>
        requires { can_take self.now working.old list }
        ensures { OnOk result (working.new ≡ (rules self.now).takes working.old list) };

    /// Seals a chunk. Gives the world that it leaves, its report, and a list for each shard in order of number.
    ///
    /// # Errors
    ///
    /// Where there is no memory for it. The working state is gone.
    fn seal_chunk(
        &self,
        alloc: Global,
        working: Self::Working,
    ) -> Result<(Self::World, Self::Report, List<Self::Parcel>), AllocError>
        requires { can_seal self.now working }
        ensures world { IfOk result (λ sealed. sealed.0 ≡ ((rules self.now).seals working).world) }
        ensures report { IfOk result (λ sealed. sealed.1 ≡ ((rules self.now).seals working).report) }
        ensures lists { IfOk result (λ sealed. sealed.2 ≡ ((rules self.now).seals working).lists) };

    /// A seal gives a list for each shard, and in the serial run each phase may be called.
    ghost laws: { (phases : Self) → is_run phases → AreLawful (rules phases) (can_open phases) (can_take phases)
        (can_seal phases) };
}
