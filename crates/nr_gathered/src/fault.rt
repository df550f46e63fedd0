//! Why the file of a gathered chunk can't be read.

ghost use Rattle.std.specs.Prelude.{◌≡◌};
ghost use Rattle.nr_gathered.specs.Files.{gathered_fault};
ghost use Rattle.nr_gathered.specs.declared.fault.GatheredFault.TheVariants.{Memory};

use nr_records::RecordFault;
use std::alloc::{AllocError, AllocFailed};
use thiserror::Error;

/// Why the file of a gathered chunk can't be read. The first field that can't be read decides, and
/// `at` is the place of its first byte, counted from 0.
#[derive(Clone, Copy, Debug, PartialEq, Eq, Error)]
pub enum GatheredFault {
    /// The field can't be read, or a byte stands behind the last one. The place is 0 where the file
    /// begins with another word.
    #[error("what stands at byte {at} can't be read")]
    Spelling { at: u64 },
    /// The field is the ordinal of an action of staking.
    #[error("the action at byte {at} is Stake")]
    Stake { at: u64 },
    /// Memory ran out.
    #[error("memory ran out")]
    Memory,
}

impl From<RecordFault> for GatheredFault {
    ghost from_gives = { λ fault e. e ≡ gathered_fault fault };

    fn from(fault: RecordFault) -> GatheredFault {
        match fault {
            RecordFault::Short { at } => GatheredFault::Spelling { at: at as u64 },
            RecordFault::BadByte { at, byte: _ } => GatheredFault::Spelling { at: at as u64 },
            RecordFault::BadUtf8 { at } => GatheredFault::Spelling { at: at as u64 },
            RecordFault::BadOrdinal { at } => GatheredFault::Spelling { at: at as u64 },
            RecordFault::BadAccountId { at } => GatheredFault::Spelling { at: at as u64 },
            RecordFault::Stake { at } => GatheredFault::Stake { at: at as u64 },
            RecordFault::TooManyBoundaries { at } => GatheredFault::Spelling { at: at as u64 },
            RecordFault::BoundaryOrder { at } => GatheredFault::Spelling { at: at as u64 },
            RecordFault::Memory => GatheredFault::Memory,
        }
    }
}
