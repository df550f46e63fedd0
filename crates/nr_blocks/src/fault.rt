//! Why a file is refused.

ghost use Rattle.std.specs.Prelude.{◌≡◌};
ghost use Rattle.nr_blocks.specs.Judging.{blocks_fault, genesis_fault};
ghost use Rattle.nr_blocks.specs.declared.fault.GenesisFault.TheVariants as genesis;

use nr_records::RecordFault;
use std::alloc::{AllocError, AllocFailed};

/// Why a genesis file is refused. Places count bytes from 0, and `index` is the number of an entry,
/// counted from 0 over all entries.
#[derive(Clone, Copy, Debug, PartialEq, Eq)]
pub enum GenesisFault {
    /// The first field that can't be read is at this place. It is 0 where the magic word is wrong.
    Spelling {
        at: u64,
    },
    /// The first entry whose trie key an earlier entry has.
    Duplicate {
        index: u64,
    },
    /// The first entry whose account has no entry, or is `system`.
    NoOwner {
        index: u64,
    },
    /// The first account that states another storage usage than its entries are counted as. Both
    /// are in bytes.
    Usage {
        index: u64,
        stated: u64,
        counted: u64,
    },
    /// Amounts and locked amounts are together above 2^127.
    Supply,
    /// The first account whose code hash isn't the SHA-256 of its code, or zeros without code.
    CodeHash {
        index: u64,
    },
    /// Memory ran out.
    Memory,
}

/// Why a blocks file is refused.
#[derive(Clone, Copy, Debug, PartialEq, Eq)]
pub enum BlocksFault {
    /// The first field that can't be read is at this place, in bytes from 0. It is 0 where the
    /// magic word is wrong.
    Spelling { at: u64 },
    /// The first block that hasn't one chunk for each shard, by the height that it states.
    ShardCount { height: u64 },
    /// The first block whose height isn't its number, counted from 1, by the height that it states.
    HeightOrder { height: u64 },
    /// More than [`MOST_BLOCKS`](crate::MOST_BLOCKS) blocks.
    TooMany,
    /// The first field that can't be read is the ordinal of an action of staking, at this place.
    Stake { at: u64 },
    /// Memory ran out.
    Memory,
}

impl From<RecordFault> for GenesisFault {
    ghost from_gives = { λ f e. e ≡ genesis_fault f };

    fn from(fault: RecordFault) -> GenesisFault {
        match fault {
            RecordFault::Short { at } => GenesisFault::Spelling { at: at as u64 },
            RecordFault::BadByte { at, byte: _ } => GenesisFault::Spelling { at: at as u64 },
            RecordFault::BadUtf8 { at } => GenesisFault::Spelling { at: at as u64 },
            RecordFault::BadOrdinal { at } => GenesisFault::Spelling { at: at as u64 },
            RecordFault::BadAccountId { at } => GenesisFault::Spelling { at: at as u64 },
            RecordFault::Stake { at } => GenesisFault::Spelling { at: at as u64 },
            RecordFault::TooManyBoundaries { at } => GenesisFault::Spelling { at: at as u64 },
            RecordFault::BoundaryOrder { at } => GenesisFault::Spelling { at: at as u64 },
            RecordFault::Memory => GenesisFault::Memory,
        }
    }
}

impl From<AllocError> for GenesisFault {
    ghost from_gives = { λ _ e. e ≡ genesis.Memory };

    fn from(_fault: AllocError) -> GenesisFault {
        GenesisFault::Memory
    }
}

impl<T: Drop> From<AllocFailed<T>> for GenesisFault {
    ghost from_gives = { λ _ e. e ≡ genesis.Memory };

    fn from(_fault: AllocFailed<T>) -> GenesisFault {
        GenesisFault::Memory
    }
}

impl From<RecordFault> for BlocksFault {
    ghost from_gives = { λ f e. e ≡ blocks_fault f };

    fn from(fault: RecordFault) -> BlocksFault {
        match fault {
            RecordFault::Short { at } => BlocksFault::Spelling { at: at as u64 },
            RecordFault::BadByte { at, byte: _ } => BlocksFault::Spelling { at: at as u64 },
            RecordFault::BadUtf8 { at } => BlocksFault::Spelling { at: at as u64 },
            RecordFault::BadOrdinal { at } => BlocksFault::Spelling { at: at as u64 },
            RecordFault::BadAccountId { at } => BlocksFault::Spelling { at: at as u64 },
            RecordFault::Stake { at } => BlocksFault::Stake { at: at as u64 },
            RecordFault::TooManyBoundaries { at } => BlocksFault::Spelling { at: at as u64 },
            RecordFault::BoundaryOrder { at } => BlocksFault::Spelling { at: at as u64 },
            RecordFault::Memory => BlocksFault::Memory,
        }
    }
}
