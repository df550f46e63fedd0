//! Why a file is refused.

ghost use Rattle.std.specs.Prelude.{◌≡◌};
ghost use Rattle.nr_blocks.specs.Judging.{blocks_fault};
ghost use Rattle.nr_reshard.specs.declared.fault.ChainFault.TheVariants as chain;

use nr_blocks::BlocksFault;
use nr_records::RecordFault;

/// Why the file of a chain's blocks is refused.
#[derive(Clone, Copy, Debug, PartialEq, Eq)]
pub enum ChainFault {
    /// As the blocks of any version are refused. Of a file of the third version, `Spelling` has the
    /// faults of the boundaries too, and `ShardCount` is the first block whose chunks are not as
    /// many as the shards at the height that it states.
    Blocks(BlocksFault),
    /// The boundaries change at this height, which is below 2 or above the count of blocks, or
    /// that block or the one before it misses a chunk.
    Reshard { height: u64 },
}

impl From<RecordFault> for ChainFault {
    ghost from_gives = { λ f e. e ≡ chain.Blocks (blocks_fault f) };

    fn from(fault: RecordFault) -> ChainFault {
        ChainFault::Blocks(BlocksFault::from(fault))
    }
}

impl From<BlocksFault> for ChainFault {
    ghost from_gives = { λ f e. e ≡ chain.Blocks f };

    fn from(fault: BlocksFault) -> ChainFault {
        ChainFault::Blocks(fault)
    }
}
