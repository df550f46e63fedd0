//! Which lists are due.

ghost use Rattle.std.specs.Prelude.{◌≡◌, ◌+◌, ◌<◌, ◌++◌, IfOk, OnOk};
ghost use Rattle.nr_overlap.specs.Serial.{first_due, pairs_at, due_after};

use crate::phases::Phases;
use nr_ids::{Height, ShardId};
use std::alloc::{AllocError, Global};

/// The first height, 1 at least, of which the chunk after this height takes lists.
#[tactic(auto, using(crate::proofs::DueLemmas::last_here, crate::proofs::DueLemmas::last_below))]
fn first_due<P: Phases>(phases: &P, shard: ShardId, height: u64) -> u64
    ensures { result ≡ first_due (P.rules phases.now) shard.0 height }
{
    let mut last = height;
    while last > 0 {
        if phases.present(shard, Height(last)) {
            return last;
        }
        last -= 1;
    }
    1
}

/// Adds the pairs of a height.
#[tactic(auto, using(crate::proofs::DueLemmas::row_with, crate::proofs::DueLemmas::row_without))]
fn push_pairs<P: Phases>(
    phases: &P,
    height: u64,
    due: &mut Vec<(u64, u32)>,
) -> Result<(), AllocError>
    ensures { OnOk result (due.new.items ≡ due.old.items ++ pairs_at (P.rules phases.now) height) }
{
    for source in 0..phases.shards() {
        if phases.present(ShardId(source), Height(height)) {
            due.push((height, source))?;
        }
    }
    Ok(())
}

/// Which lists are due to a shard's chunk at the height after this one: those of all chunks from the shard's last
/// present height on, or from height 1, by height and then source. Each is a pair of height and source.
///
/// # Errors
///
/// Where there is no memory for them.
#[tactic(auto, using(crate::proofs::DueLemmas::span_step, crate::proofs::DueLemmas::first_small), unfolding(crate::specs::Serial::due_after))]
pub fn due_list<P: Phases>(
    alloc: Global,
    phases: &P,
    shard: ShardId,
    height: u64,
) -> Result<Vec<(u64, u32)>, AllocError>
    requires { height < (P.rules phases.now).heights }
    ensures { IfOk result (λ due. due.items ≡ due_after (P.rules phases.now) shard.0 height) }
{
    let _heights = phases.heights();
    let mut due = Vec::new(alloc);
    for h in first_due(phases, shard, height)..height + 1 {
        push_pairs(phases, h, &mut due)?;
    }
    Ok(due)
}
