//! Why a chunk isn't run again.

ghost use Rattle.std.specs.Prelude.{◌≡◌};
ghost use Rattle.nr_recheck.specs.Rechecking.{memory_fault, walk_fault, world_fault};

use nr_walk::WalkFault;
use nr_worlds::WorldFault;
use std::alloc::AllocError;
use thiserror::Error;

/// Why a chunk isn't run again, in the order in which it is looked for. What is looked for twice, in the texts for the
/// delayed queue and in those for the accounts, is looked for in the first walk before the second one begins.
#[derive(Clone, Copy, Debug, PartialEq, Eq, Error)]
pub enum RecheckFault {
    /// Its height is 0, or there is no such shard.
    #[error("the chunk's height is 0, or there is no such shard")]
    Place,
    /// A text is missing.
    #[error("a text is missing")]
    Missing,
    /// A text is no node's, or doesn't go with the others.
    #[error("a text is bad")]
    BadText,
    /// More than 2^28 nodes would be looked at.
    #[error("there are too many nodes")]
    TooMany,
    /// The entries that the texts give are those of no delayed queue, or of no valid world.
    #[error("the texts give no valid world")]
    NotWorld,
    /// The gas price or the prepaid gas of a receipt that it takes doesn't fit in 64 bits, the world and these receipts
    /// have more than 2^127 tokens, or more than 2^63 receipts were ever delayed.
    #[error("a number passes its bound")]
    Bounds,
    /// Memory ran out.
    #[error("memory ran out")]
    Memory,
}

impl From<AllocError> for RecheckFault {
    ghost from_gives = { λ _ e. e ≡ memory_fault };

    fn from(_: AllocError) -> RecheckFault {
        RecheckFault::Memory
    }
}

impl From<WalkFault> for RecheckFault {
    ghost from_gives = { λ fault e. e ≡ walk_fault fault };

    fn from(fault: WalkFault) -> RecheckFault {
        match fault {
            WalkFault::Missing { .. } => RecheckFault::Missing,
            WalkFault::BadText { .. } => RecheckFault::BadText,
            WalkFault::TooMany => RecheckFault::TooMany,
            WalkFault::Memory => RecheckFault::Memory,
        }
    }
}

impl From<WorldFault> for RecheckFault {
    ghost from_gives = { λ fault e. e ≡ world_fault fault };

    fn from(fault: WorldFault) -> RecheckFault {
        match fault {
            WorldFault::NotWorld => RecheckFault::NotWorld,
            WorldFault::Memory => RecheckFault::Memory,
        }
    }
}
