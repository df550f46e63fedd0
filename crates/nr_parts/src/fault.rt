//! Why a part is refused.

ghost use Rattle.std.specs.Prelude.{◌≡◌};
ghost use Rattle.nr_parts.specs.Checking.{memory_fault, walk_fault};
ghost use Rattle.nr_parts.specs.Files.{part_fault};

use nr_bytes::BytesFault;
use nr_ids::Hash32;
use nr_walk::WalkFault;
use std::alloc::AllocError;
use thiserror::Error;

/// Why a part can't be read, is refused, or doesn't join with others.
#[derive(Clone, Copy, Debug, Error)]
pub enum PartFault {
    /// The field at this place can't be read.
    #[error("what stands at byte {at} can't be read")]
    Spelling { at: u64 },
    /// The count is outside 1 to 10,000, or the number isn't below it.
    #[error("there is no part {number} of {count}")]
    Numbers { count: u32, number: u32 },
    /// The part is of another root.
    #[error("the part has another root")]
    Root { found: Hash32 },
    /// The text with this SHA-256 isn't there.
    #[error("a text is missing")]
    Missing { hash: Hash32 },
    /// The text with this SHA-256 is no node's, or doesn't go with its place or its children.
    #[error("a text is bad")]
    BadText { hash: Hash32 },
    /// The entry of this index isn't the part's, or is one too few or too many.
    #[error("entry {index} isn't the part's")]
    Entries { index: u64 },
    /// The part at this position has another number or count.
    #[error("part {number} isn't in its place")]
    Order { number: u32 },
    /// All entries together have another root.
    #[error("the parts together have another root")]
    Whole { found: Hash32 },
    /// There would be more than 2^28 nodes to look at.
    #[error("there are too many nodes")]
    TooMany,
    /// Memory ran out.
    #[error("memory ran out")]
    Memory,
}

impl From<AllocError> for PartFault {
    ghost from_gives = { λ _ e. e ≡ memory_fault };

    fn from(_: AllocError) -> PartFault {
        PartFault::Memory
    }
}

impl From<WalkFault> for PartFault {
    ghost from_gives = { λ fault e. e ≡ walk_fault fault };

    fn from(fault: WalkFault) -> PartFault {
        match fault {
            WalkFault::Missing { hash } => PartFault::Missing { hash },
            WalkFault::BadText { hash } => PartFault::BadText { hash },
            WalkFault::TooMany => PartFault::TooMany,
            WalkFault::Memory => PartFault::Memory,
        }
    }
}

impl From<BytesFault> for PartFault {
    ghost from_gives = { λ fault e. e ≡ part_fault fault };

    fn from(fault: BytesFault) -> PartFault {
        match fault {
            BytesFault::Short { at } => PartFault::Spelling { at: at as u64 },
            BytesFault::BadByte { at, byte: _ } => PartFault::Spelling { at: at as u64 },
            BytesFault::BadUtf8 { at } => PartFault::Spelling { at: at as u64 },
            BytesFault::Memory => PartFault::Memory,
        }
    }
}
