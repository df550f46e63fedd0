//! Rolls, and the names of their chunks.

ghost use Rattle.std.specs.Prelude.{◌≡◌, IfOk};

use crate::roll::Roll;
use crate::roll_call::Name;
use std::alloc::{AllocError, Global};

/// A roll of so many shards: for each block whether it has a chunk of each shard, and the chunk whose opening finds no
/// memory.
pub(crate) fn roll(
    alloc: Global,
    shards: u32,
    blocks: &[&[bool]],
    refused: Option<(u32, u64)>,
) -> Result<Roll, AllocError>
    ensures { IfOk result (λ roll. roll.shards ≡ shards) }
{
    let mut all = Vec::new(alloc);
    for block in blocks {
        all.push(block.to_vec(alloc)?)?;
    }
    Ok(Roll {
        shards,
        blocks: all,
        refused,
    })
}

/// The name of a shard's chunk at a height.
pub(crate) const fn name(height: u64, source: u32) -> Name {
    Name { height, source }
}
