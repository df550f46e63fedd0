//! What an exchange knows of a run, and how the phases of a run come to it.
ghost use Rattle.std.specs.Prelude.{◌≡◌, ◌<◌, ℕ, true, length};
ghost use Rattle.nr_exchange.specs.Plan.{Plan};

use nr_overlap::Phases;

/// A run whose chunks send lists. Which chunks are there, and what each of them sends, are functions of the run alone:
/// the ghost record `plan` has them.
///
/// A run has `shards` shards, numbered from 0, and `heights` blocks, at heights from 1.
pub trait Planned {
    /// What a chunk sends to one shard.
    type Parcel: Drop + Send;

    /// What is known of a run.
    ghost is_run: { Self → Type 0 };

    /// Its shards and heights, the chunks that are there, and the lists that they send.
    ghost plan: { Self → Plan Self.Parcel };

    /// How many shards there are.
    fn shards(&self) -> u32
        ensures count { result ≡ (plan self.now).shards }
        ensures run { is_run self.now };

    /// How many blocks there are. The last has this height.
    fn heights(&self) -> u64
        ensures { result ≡ (plan self.now).heights };

    /// A chunk sends a list to each shard.
    ghost one_each: { (run : Self) → is_run run → (s h : ℕ) → 0 < h → (plan run).present s h ≡ true
        → length ((plan run).lists s h) ≡ (plan run).shards };
}

/// The serial run of phases: its chunks send what they seal.
#[derive(Drop)]
pub struct Serial<P: Phases>(pub P);

impl<P: Phases> Planned for Serial<P> {
    ghost use Rattle.nr_exchange.specs.SerialPlan.{serial_plan};
    ghost use Rattle.nr_exchange.specs.Laws.{one_each};

    ghost is_run = { λ run. P.is_run run.0 };

    ghost plan = { serial_plan P.rules };

    ghost one_each = { λ run is s h above there. one_each (P.rules run.0) (P.laws run.0 is) s h above there };

    type Parcel = P::Parcel;

    fn shards(&self) -> u32 {
        self.0.shards()
    }

    fn heights(&self) -> u64 {
        self.0.heights()
    }
}
