//! Why texts give no part of a trie.

ghost use Rattle.std.specs.Prelude.{◌≡◌};
ghost use Rattle.nr_walk.specs.Texts.{memory_fault};

use nr_ids::Hash32;
use std::alloc::AllocError;
use thiserror::Error;

/// The first fault of a walk, in the order in which it looks at nodes and values.
#[derive(Clone, Copy, Debug, Error)]
pub enum WalkFault {
    /// No text with this SHA-256 is held.
    #[error("a text is missing")]
    Missing { hash: Hash32 },
    /// The text with this SHA-256 is no node's, or doesn't go with the texts of its children, or
    /// puts a value where none can be, or is a value of another length than its node says.
    #[error("a text is bad")]
    BadText { hash: Hash32 },
    /// The walk would look at more than 2^28 nodes.
    #[error("there are too many nodes")]
    TooMany,
    /// Memory ran out.
    #[error("memory ran out")]
    Memory,
}

impl From<AllocError> for WalkFault {
    ghost from_gives = { λ _ e. e ≡ memory_fault };

    fn from(_: AllocError) -> WalkFault {
        WalkFault::Memory
    }
}
