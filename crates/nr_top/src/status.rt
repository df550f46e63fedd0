//! How a call of `near_serial` or `near_replay` ends.

use nr_chainfiles::ChainRefusal;
use nr_configfile::ConfigRefusal;

/// How a call of the program ended.
///
/// A genesis or a blocks file is refused by the first fault that `nr_blocks` or `nr_reshard` gives, with its numbers
/// in their order and zeros for the rest. Places count bytes from 0, entries count from 0 over all
/// entries of the file, and a height is the one that the block states.
#[derive(Clone, Copy, Debug, PartialEq, Eq)]
pub enum Status {
    /// The text was written.
    Done,
    /// The words are no command.
    Usage,
    /// The file is no configuration. The kind is 0 where it is longer than 1 MiB, 1 where it is no JSON
    /// object, 2 where an entry is missing, 3 where it is no whole number, and 4 where it is outside
    /// its bounds. The entry counts from 1, and is 0 for the kinds 0 and 1.
    Config { kind: u32, entry: u32 },
    /// The file is no genesis. The kind is 0 where it is longer than 64 MiB, 1 where a field can't be
    /// read (`a` is its place), 2 where an earlier entry has the same trie key (`a` is the entry), 3
    /// where an entry has no owner (`a` is the entry), 4 where an account states another storage usage
    /// than its entries count (`a` is the entry, `b` the stated and `c` the counted bytes), 5 where
    /// the supply passes 2^127, and 6 where a code hash is off (`a` is the entry).
    Genesis { kind: u32, a: u64, b: u64, c: u64 },
    /// The file has no blocks for the shards of the genesis. The kind is 0 where it is longer than
    /// 256 MiB, 1 where a field can't be read (`a` is its place), 2 where a block hasn't one chunk for
    /// each shard that there is at the height that it states (`a` is this height), 3 where a block's height isn't its
    /// number, from 1 (`a` is its height), 4 where there are more than 100,000 blocks, 5 where an action
    /// of staking stands (`a` is its place), and 6 where the boundaries change at a height that is below 2
    /// or above the count of blocks, or where that block or the one before it misses a chunk (`a` is this
    /// height).
    Blocks { kind: u32, a: u64 },
    /// The file is no schedule for the shards of the run. The kind is 0 where it is longer than 1 MiB
    /// (the line is then 0), and 1 where a line, counted from 1, has none of the forms `open S`,
    /// `take S SOURCE HEIGHT`, `seal S`, `publish S`, `rest` and `reshard`, has no line feed behind it, or
    /// names a shard not below the shard count, or where the boundaries change the greater of both.
    Schedule { kind: u32, line: u64 },
    /// The file is no proof. The kind is 0 where it is longer than 256 MiB (the line is then 0), and 1
    /// where a line, counted from 1, isn't of the form or isn't there.
    Proof { kind: u32, line: u64 },
    /// There is no such chunk, or it has no item at the place. The count is that of the chunk's items of
    /// the kind, and 0 where there is no such chunk.
    NoItem { count: u64 },
    /// The file of a gathered chunk is refused. The kind is 0 where it is longer than 256 MiB, 1 where a field
    /// can't be read (`a` is its place), 2 where a text is missing, 3 where a text is no node's, or not one that
    /// can stand there, 4 where what the texts give is no delayed list or no world, 5 where an action of staking
    /// stands (`a` is its place), 6 where a number or a sum is too great for a chunk, 7 where the height is 0 or the
    /// shard isn't there, and 8 where there are too many nodes. `a` is 0 where nothing else is said.
    Gathered { kind: u32, a: u64 },
    /// Parts of a state are refused. The kind is 0 where a file is longer than 256 MiB, and else the
    /// number of the fault that `nr_parts` gives: 1 a field can't be read, 2 the part's numbers are out of
    /// range, 3 another root, 4 a text is missing, 5 a text is no node's, or not one that can stand there,
    /// 6 the entries aren't those of the walk, 7 a part out of order, 8 another root of the whole, 9 too
    /// many nodes. `a` is the place of a field, the index of an entry, the position of a part out of order,
    /// 0 where the whole has another root, and else the part's position, from 0.
    Parts { kind: u32, a: u64 },
    /// A file could not be read.
    ReadFault,
    /// The text could not be written whole.
    WriteFault,
    /// Memory ran out.
    NoMemory,
}

impl ConfigRefusal for Status {
    ghost use Rattle.nr_top.specs.Answers.{refuses};
    ghost use Rattle.nr_top.specs.declared.status.Status.TheVariants.{Config};

    ghost refuses = { refuses };

    ghost refusal = { λ kind entry. Config kind entry };

    fn of_config(kind: u32, entry: u32) -> Self {
        Status::Config { kind, entry }
    }
}

impl ChainRefusal for Status {
    ghost use Rattle.nr_top.specs.declared.status.Status.TheVariants.{Blocks, Genesis};

    ghost genesis_refusal = { λ kind a b c. Genesis kind a b c };

    ghost blocks_refusal = { λ kind a. Blocks kind a };

    fn of_genesis(kind: u32, a: u64, b: u64, c: u64) -> Self {
        Status::Genesis { kind, a, b, c }
    }

    fn of_blocks(kind: u32, a: u64) -> Self {
        Status::Blocks { kind, a }
    }
}
