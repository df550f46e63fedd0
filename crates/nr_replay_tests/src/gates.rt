//! Gates at which shards wait for each other.

use nr_ids::{Height, ShardId};
use nr_workers::{Gate, Moment};
use std::sync::atomic::{AtomicBool, Ordering};
use std::thread;

/// How often a shard looks for the other before it gives up.
const TURNS: u64 = 100_000_000;

/// Whether a flag is set in time.
fn comes(flag: &AtomicBool) -> bool {
    for _ in 0..TURNS {
        if flag.load(Ordering::SeqCst) {
            return true;
        }
        thread::yield_now();
    }
    false
}

/// Holds each of two shards before it opens its chunk at height 1 until the other has come there.
#[derive(Drop)]
pub(crate) struct TwoAtOpen {
    pub(crate) there: [AtomicBool; 2],
    /// Whether a shard waited in vain.
    pub(crate) alone: AtomicBool,
}

impl Gate for TwoAtOpen {
    fn pass(&self, shard: ShardId, height: Height, moment: Moment) {
        if height.0 != 1 || moment != Moment::BeforeOpen {
            return;
        }
        let (mine, other) = if shard.0 == 0 { (0, 1) } else { (1, 0) };
        self.there[mine].store(true, Ordering::SeqCst);
        if !comes(&self.there[other]) {
            self.alone.store(true, Ordering::SeqCst);
        }
    }
}

/// Holds shard 0 behind the seal of its chunk at height 1 until shard 1 has come to its chunk at height 2.
#[derive(Drop)]
pub(crate) struct AheadOfBarrier {
    pub(crate) ahead: AtomicBool,
    /// Whether shard 0 waited in vain.
    pub(crate) alone: AtomicBool,
}

impl Gate for AheadOfBarrier {
    fn pass(&self, shard: ShardId, height: Height, moment: Moment) {
        if shard.0 == 1 && height.0 == 2 && moment == Moment::BeforeOpen {
            self.ahead.store(true, Ordering::SeqCst);
        }
        if shard.0 == 0 && height.0 == 1 && moment == Moment::AfterSeal && !comes(&self.ahead) {
            self.alone.store(true, Ordering::SeqCst);
        }
    }
}
