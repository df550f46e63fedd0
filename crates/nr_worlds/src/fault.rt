//! Why entries are not those of a world.

ghost use Rattle.std.specs.Prelude.{◌≡◌};
ghost use Rattle.nr_worlds.specs.Answers.{memory_fault};

use std::alloc::AllocError;
use thiserror::Error;

/// Why entries are refused.
#[derive(Clone, Copy, Debug, PartialEq, Eq, Error)]
pub enum WorldFault {
    /// They are the trie entries of no such world.
    #[error("the entries are those of no valid world")]
    NotWorld,
    /// Memory ran out.
    #[error("memory ran out")]
    Memory,
}

impl From<AllocError> for WorldFault {
    ghost from_gives = { λ _ e. e ≡ memory_fault };

    fn from(_: AllocError) -> WorldFault {
        WorldFault::Memory
    }
}
