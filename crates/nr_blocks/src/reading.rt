//! The two files, read whole.

ghost use Rattle.std.specs.Prelude.{◌≡◌, List as Items, Ok, IfOk};
ghost use Rattle.std.specs.List.{AllByRecursion};
ghost use Rattle.nr_blocks.specs.BlocksFiles.{FitsPrice};
ghost use Rattle.nr_blocks.specs.Genesis.{IsSoundGenesis};
ghost use Rattle.nr_bytes.specs.Answers.{Gives};
ghost use Rattle.nr_blocks.specs.Judging.{blocks_read, founded, genesis_read};
ghost use Rattle.nr_blocks.specs.Spellings.{genesis_spelling, IsGenesis, blocks_spelling, AreBlocks};
ghost use Rattle.nr_blocks.specs.declared.block.Block.{Block as Blocks};
ghost use Rattle.nr_blocks.specs.declared.fault.BlocksFault.TheVariants as blocks;
ghost use Rattle.nr_blocks.specs.declared.fault.GenesisFault.TheVariants as genesis;
ghost use Rattle.nr_blocks.specs.declared.genesis.Genesis.{Genesis as Genesises};
ghost use Rattle.nr_blocks.specs.declared.version.Version.{Version};

use crate::block::Block;
use crate::block_checks::check_blocks;
use crate::blocks_file::{bytes_law, decode_blocks};
use crate::entry_checks::{check_code_hashes, check_owners, judge_trie_keys, judge_usages};
use crate::fault::{BlocksFault, GenesisFault};
use crate::genesis::Genesis;
use crate::genesis_entry::GenesisEntry;
use crate::genesis_file::GenesisFile;
use crate::supply::bounded_supply;
use nr_bytes::List;
use nr_config::Config;
use nr_records::decode;
use std::alloc::Global;

/// The supply of the entries, where they hold together.
#[tactic(auto, unfolding(crate::specs::Judging::founded))]
fn judge(alloc: Global, entries: &[GenesisEntry], config: &Config) -> Result<u128, GenesisFault>
    ensures { Gives genesis.Memory result (founded config.now entries.now) }
{
    judge_trie_keys(alloc, entries)?;
    check_owners(alloc, entries)?;
    judge_usages(alloc, entries, config)?;
    let supply = bounded_supply(entries)?;
    check_code_hashes(alloc, entries)?;
    Ok(supply)
}

#[tactic(auto, unfolding(crate::specs::Judging::genesis_read))]
fn genesis_of(alloc: Global, bytes: &[u8], config: &Config) -> Result<Genesis, GenesisFault>
    ensures { Gives genesis.Memory result (genesis_read config.now bytes.now) }
{
    let file = decode::<GenesisFile>(alloc, bytes)?;
    let supply = judge(alloc, file.entries.inner(), config)?;
    Ok(Genesis {
        layout: file.layout,
        entries: file.entries,
        supply,
    })
}

/// Reads a genesis file, under the configuration by which storage is counted: the bytes `NRG1`, the
/// boundaries between the shards, the entries, and the end.
///
/// # Errors
///
/// The first of these that there is: `Spelling` with the place of the first field that can't be
/// read, where a byte behind the entries is such a field; `Duplicate`, `NoOwner`, `Usage`, `Supply`
/// and `CodeHash`, as they say. `Memory`.
pub fn read_genesis(alloc: Global, bytes: &[u8], config: &Config) -> Result<Genesis, GenesisFault>
    ensures gives { Gives genesis.Memory result (genesis_read config.now bytes.now) }
    // What is read is spelled so.
    ensures found { IfOk result (λ genesis. IsGenesis config.now genesis × (bytes.now ≡ genesis_spelling genesis)) }
    ensures sound { IfOk result (IsSoundGenesis config.now) }
    // What is spelled so is read, unless memory runs out.
    ensures only { (g : Genesises) → IsGenesis config.now g → bytes.now ≡ genesis_spelling g
        → Gives genesis.Memory result (Ok g) }
{
    genesis_of(alloc, bytes, config)
}

#[tactic(auto, unfolding(crate::specs::Judging::blocks_read))]
fn blocks_of(alloc: Global, bytes: Vec<u8>, shards: u32) -> Result<List<Block>, BlocksFault>
    ensures { Gives blocks.Memory result (blocks_read shards bytes.items) }
{
    let file = decode_blocks(alloc, bytes)?;
    let blocks = file.blocks;
    check_blocks(blocks.inner(), shards)?;
    Ok(blocks)
}

/// Reads a blocks file for this many shards: the bytes `NRB1` or `NRB2`, the blocks, and the end.
/// Behind `NRB2` each block has a gas price, and behind `NRB1` none has one. The bytes are given back while blocks are
/// made of them.
///
/// # Errors
///
/// The first of these that there is: of the first field that can't be read `Stake` where it is the
/// ordinal of an action of staking, and otherwise `Spelling`, each with its place, where a byte
/// behind the blocks is such a field; `ShardCount`, `HeightOrder` and `TooMany`, as they say.
/// `Memory`.
pub fn read_blocks(alloc: Global, bytes: Vec<u8>, shards: u32) -> Result<List<Block>, BlocksFault>
    ensures gives { Gives blocks.Memory result (blocks_read shards bytes.items) }
    // What is read is spelled so, in one of the versions.
    ensures found { IfOk result (λ list. (version : Version) × AreBlocks version shards list
        × (bytes.items ≡ blocks_spelling version list)) }
    // The price of each block, where it has one, is below 2^64.
    ensures priced { IfOk result (λ list. AllByRecursion FitsPrice list) }
    // What is spelled so is read, unless memory runs out.
    ensures only { (version : Version) (list : Items Blocks) → AreBlocks version shards list
        → bytes.items ≡ blocks_spelling version list → Gives blocks.Memory result (Ok list) }
{
    bytes_law(bytes.as_slice());
    blocks_of(alloc, bytes, shards)
}
