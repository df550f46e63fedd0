//! Chains that three numbers determine.

ghost use Rattle.std.specs.Prelude.{◌≡◌, ◌≤◌, IfOk};
ghost use Rattle.std.specs.List.{AllByRecursion};
ghost use Rattle.nr_config.specs.Config.{Config, generated};
ghost use Rattle.nr_blocks.specs.BlocksFiles.{FitsPrice};
ghost use Rattle.nr_blocks.specs.Genesis.{IsSoundGenesis};
ghost use Rattle.nr_blocks.specs.Spellings.{AreBlocks, IsGenesis};
ghost use Rattle.nr_blocks.specs.declared.version.Version.TheVariants.{One};
ghost use Rattle.nr_gen.specs.Chain.{generated_blocks};
ghost use Rattle.nr_gen.specs.Founding.{CountsStorage, generated_genesis};

use crate::blocks::blocks_of;
use crate::genesis::genesis_of;
use nr_blocks::{Block, Genesis};
use nr_bytes::List;
use std::alloc::{AllocError, Global};

/// A chain that three numbers determine: the number from which all draws are made, 1 to 16 shards,
/// and 1 to 256 blocks.
///
/// Each shard has eight users with a key each and a contract. In each block a shard's chunk is
/// missing once in 16 times; otherwise six of its users pay a user of some shard, and two call
/// their contract, which calls the contract of some shard and takes back what that returns.
///
/// # Errors
///
/// Where memory runs out.
pub fn generate(
    alloc: Global,
    start: u64,
    shards: u32,
    blocks: u64,
) -> Result<(Genesis, List<Block>), AllocError>
    requires shards { 1 ≤ shards }
    requires few_shards { shards ≤ 16 }
    requires blocks { 1 ≤ blocks }
    requires few_blocks { blocks ≤ 256 }
    ensures genesis { IfOk result (λ made. made.0 ≡ generated_genesis shards) }
    ensures blocks { IfOk result (λ made. made.1 ≡ generated_blocks start shards blocks) }
    // The genesis is sound under each configuration that counts storage as it states,
    ensures sound { IfOk result (λ made. (c : Config) → CountsStorage c → IsSoundGenesis c made.0) }
    // and so under the one that is built in for generated chains.
    ensures built_in { IfOk result (λ made. IsSoundGenesis generated made.0) }
    // A genesis file and a blocks file of version 1 can hold it, and are read as what they hold.
    ensures genesis_file { IfOk result (λ made. IsGenesis generated made.0) }
    ensures blocks_file { IfOk result (λ made. AreBlocks One shards made.1) }
    // The price of each block, where it has one, is below 2^64.
    ensures priced { IfOk result (λ made. AllByRecursion FitsPrice made.1) }
{
    let genesis = genesis_of(alloc, shards)?;
    let blocks = blocks_of(alloc, start, shards, blocks)?;
    Ok((genesis, blocks))
}
