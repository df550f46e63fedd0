//! Why a record could not be read.

ghost use Rattle.std.specs.Prelude.{◌≡◌};
ghost use Rattle.nr_records.specs.Fault.{record_fault};
ghost use Rattle.nr_records.specs.declared.fault.RecordFault.TheVariants.{Memory};

use nr_bytes::BytesFault;
use std::alloc::{AllocError, AllocFailed};
use thiserror::Error;

/// Why no record could be read. The first field that can't be read decides, and `at` is the place
/// of that field's first byte, counted from 0.
#[derive(Clone, Copy, Debug, PartialEq, Eq, Error)]
pub enum RecordFault {
    /// The field needs more bytes than are left.
    #[error("the field at {at} passes the end")]
    Short { at: usize },
    /// The flag of an `Option` is neither 0 nor 1, or a byte stands behind the record.
    #[error("the byte {byte} at {at} may not stand there")]
    BadByte { at: usize, byte: u8 },
    /// A whole text is not UTF-8.
    #[error("the text at {at} is not UTF-8")]
    BadUtf8 { at: usize },
    /// An ordinal names no variant.
    #[error("the ordinal at {at} names no variant")]
    BadOrdinal { at: usize },
    /// A whole text is no account id.
    #[error("the text at {at} is no account id")]
    BadAccountId { at: usize },
    /// The ordinal of an action is 4, that of staking.
    #[error("the action at {at} is Stake")]
    Stake { at: usize },
    /// More boundaries than a layout of shards may have. No record has this fault.
    #[error("the count of boundaries at {at} is above its limit")]
    TooManyBoundaries { at: usize },
    /// A boundary is not above the one before it. No record has this fault.
    #[error("the boundary at {at} is not above the one before it")]
    BoundaryOrder { at: usize },
    /// Memory ran out.
    #[error("memory ran out")]
    Memory,
}

impl From<BytesFault> for RecordFault {
    ghost from_gives = { λ f e. e ≡ record_fault f };

    fn from(fault: BytesFault) -> RecordFault {
        match fault {
            BytesFault::Short { at } => RecordFault::Short { at },
            BytesFault::BadByte { at, byte } => RecordFault::BadByte { at, byte },
            BytesFault::BadUtf8 { at } => RecordFault::BadUtf8 { at },
            BytesFault::Memory => RecordFault::Memory,
        }
    }
}

impl From<AllocError> for RecordFault {
    ghost from_gives = { λ _ e. e ≡ Memory };

    fn from(_fault: AllocError) -> RecordFault {
        RecordFault::Memory
    }
}

impl<T: Drop> From<AllocFailed<T>> for RecordFault {
    ghost from_gives = { λ _ e. e ≡ Memory };

    fn from(_fault: AllocFailed<T>) -> RecordFault {
        RecordFault::Memory
    }
}
