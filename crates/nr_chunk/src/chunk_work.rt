//! A chunk at work, as those who drive it see it.

ghost use Rattle.std.specs.Prelude.{◌≡◌};

use crate::work::Work;
use std::marker::Model;

/// A chunk at work, from its opening to its seal. Contracts see its world, what it made and burnt so far, and whether
/// it is whole: no change was left in the middle by want of memory.
#[derive(Drop)]
pub struct ChunkWork {
    pub(crate) work: Work,
    // No change was left in the middle.
    pub(crate) whole: bool,
}

impl Model for ChunkWork {
    ghost use Rattle.std.specs.Prelude.{◌≡◌, true};
    ghost use Rattle.nr_chunk.specs.Views.{Working};
    ghost use Rattle.nr_chunk.specs.Works.{working_of, IsReady};
    ghost use Rattle.nr_chunk.specs.Codes.{working_code};

    ghost Value = { Working };

    ghost coded = { working_code };

    ghost view = { λ k. record (working_of k.work) { whole = k.whole } };

    ghost invariant = { λ k. k.whole ≡ true → IsReady k.work };
}
