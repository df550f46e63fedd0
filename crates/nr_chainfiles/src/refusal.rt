//! What a program answers where a file of a chain is refused.

ghost use Rattle.std.specs.Prelude.{◌≡◌, true};

use nr_configfile::ConfigRefusal;

/// What a program refuses a command with, the files of a chain among others.
pub trait ChainRefusal: ConfigRefusal {
    ghost use Rattle.std.specs.Prelude.{ℕ};

    /// The refusal of a genesis, by kind and numbers.
    ghost genesis_refusal: { ℕ → ℕ → ℕ → ℕ → Self };

    /// The refusal of blocks, by kind and number.
    ghost blocks_refusal: { ℕ → ℕ → Self };

    /// The refusal of a file that is no genesis. The kind is 0 where it is longer than 64 MiB, 1 where a field can't be
    /// read (`a` is its place), 2 where an earlier entry has the same trie key (`a` is the entry), 3 where an entry has
    /// no owner (`a` is the entry), 4 where an account states another storage usage than its entries count (`a` is the
    /// entry, `b` the stated and `c` the counted bytes), 5 where the supply passes 2^127, and 6 where a code hash is
    /// off (`a` is the entry). Numbers of which nothing is said are 0.
    fn of_genesis(kind: u32, a: u64, b: u64, c: u64) -> Self
        ensures value { result ≡ genesis_refusal kind a b c }
        ensures refuses { Self.refuses result ≡ true };

    /// The refusal of a file that has no blocks for the shards of the genesis. The kind is 0 where it is longer than
    /// 256 MiB, 1 where a field can't be read (`a` is its place), 2 where a block hasn't one chunk for each shard that
    /// there is at the height that it states (`a` is this height), 3 where a block's height isn't its number, from 1
    /// (`a` is its height), 4 where there are more than 100,000 blocks, 5 where an action of staking stands (`a` is its
    /// place), and 6 where the boundaries change at a height that is below 2 or above the count of blocks, or where
    /// that block or the one before it misses a chunk (`a` is this height).
    fn of_blocks(kind: u32, a: u64) -> Self
        ensures value { result ≡ blocks_refusal kind a }
        ensures refuses { Self.refuses result ≡ true };
}
