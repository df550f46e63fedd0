//! The file of a chain's blocks, read whole.

ghost use Rattle.std.specs.Prelude.{◌≡◌, ◌==◌, true, false, List as Items, Some, Ok, IfOk};
ghost use Rattle.std.specs.List.{AllByRecursion, starts_with};
ghost use Rattle.nr_blocks.specs.BlocksFiles.{FitsPrice};
ghost use Rattle.nr_blocks.specs.Spellings.{AreBlocks, blocks_spelling};
ghost use Rattle.nr_blocks.specs.declared.block.Block.{Block as Blocks};
ghost use Rattle.nr_blocks.specs.declared.fault.BlocksFault.TheVariants as blocks;
ghost use Rattle.nr_blocks.specs.declared.version.Version.{Version};
ghost use Rattle.nr_bytes.specs.Answers.{Gives};
ghost use Rattle.nr_reshard.specs.Files.{third_bytes, third_magic};
ghost use Rattle.nr_reshard.specs.Judging.{chain_read, plain_file, plain_of, third_read};
ghost use Rattle.nr_reshard.specs.Spellings.{CanReshard, IsChainFile, IsSpelled};
ghost use Rattle.nr_reshard.specs.declared.chain_file.ChainFile.{ChainFile as Files};
ghost use Rattle.nr_reshard.specs.declared.fault.ChainFault.TheVariants as chain;
ghost use Rattle.nr_reshard.specs.declared.reshard.Reshard.{Reshard};

use crate::chain_file::ChainFile;
use crate::checks::check_file;
use crate::fault::ChainFault;
use crate::third::{begins_third, take_third};
use nr_blocks::{Block, BlocksFault, bytes_law, read_blocks};
use nr_bytes::List;
use std::alloc::Global;

#[tactic(auto, unfolding(crate::specs::Judging::third_read))]
fn judged(alloc: Global, bytes: Vec<u8>, shards: u32) -> Result<ChainFile, ChainFault>
    ensures { Gives (chain.Blocks blocks.Memory) result (third_read shards bytes.items) }
{
    let file = take_third(alloc, bytes)?;
    check_file(&file, shards)?;
    Ok(file)
}

/// The file of the third version.
fn third_file(alloc: Global, bytes: Vec<u8>, shards: u32) -> Result<ChainFile, ChainFault>
    requires { starts_with ◌==◌ bytes.items third_magic ≡ true }
    ensures gives { Gives (chain.Blocks blocks.Memory) result (chain_read shards bytes.items) }
    ensures found { IfOk result (IsSpelled shards bytes.items) }
    ensures priced { IfOk result (λ file. AllByRecursion FitsPrice file.blocks) }
    ensures whole { IfOk result (λ file. (r : Reshard) → file.reshard ≡ Some r → CanReshard shards file.blocks r) }
    ensures only { (f : Files) → IsChainFile shards f → bytes.items ≡ third_bytes f
        → Gives (chain.Blocks blocks.Memory) result (Ok f) }
    ensures only_before { (version : Version) (bs : Items Blocks) → AreBlocks version shards bs
        → bytes.items ≡ blocks_spelling version bs
        → Gives (chain.Blocks blocks.Memory) result (Ok (plain_file bs)) }
{
    bytes_law(bytes.as_slice());
    judged(alloc, bytes, shards)
}

fn plain_of(read: Result<List<Block>, BlocksFault>) -> Result<ChainFile, ChainFault>
    ensures { result ≡ plain_of read }
{
    match read {
        Ok(blocks) => Ok(ChainFile {
            reshard: None,
            blocks,
        }),
        Err(fault) => Err(ChainFault::Blocks(fault)),
    }
}

/// The file of another version.
fn plain_file(alloc: Global, bytes: Vec<u8>, shards: u32) -> Result<ChainFile, ChainFault>
    requires { starts_with ◌==◌ bytes.items third_magic ≡ false }
    ensures gives { Gives (chain.Blocks blocks.Memory) result (chain_read shards bytes.items) }
    ensures found { IfOk result (IsSpelled shards bytes.items) }
    ensures priced { IfOk result (λ file. AllByRecursion FitsPrice file.blocks) }
    ensures whole { IfOk result (λ file. (r : Reshard) → file.reshard ≡ Some r → CanReshard shards file.blocks r) }
    ensures only { (f : Files) → IsChainFile shards f → bytes.items ≡ third_bytes f
        → Gives (chain.Blocks blocks.Memory) result (Ok f) }
    ensures only_before { (version : Version) (bs : Items Blocks) → AreBlocks version shards bs
        → bytes.items ≡ blocks_spelling version bs
        → Gives (chain.Blocks blocks.Memory) result (Ok (plain_file bs)) }
{
    plain_of(read_blocks(alloc, bytes, shards))
}

/// Reads a blocks file of any version for a chain that begins with this many shards: the bytes
/// `NRB1`, `NRB2` or `NRB3`; behind `NRB3` the height from which there are other boundaries, and
/// these, or nothing; the blocks, and the end. Behind `NRB2` and `NRB3` each block has a gas price,
/// and behind `NRB1` none has one. The bytes are given back from the end while transactions
/// are made.
///
/// # Errors
///
/// The first of these that there is: of the first field that can't be read `Blocks(Stake)` where it
/// is the ordinal of an action of staking, and otherwise `Blocks(Spelling)`, each with its place,
/// where a byte behind the blocks is such a field; `Blocks(ShardCount)`, `Blocks(HeightOrder)`,
/// `Blocks(TooMany)` and `Reshard`, as they say. `Blocks(Memory)`.
pub fn read_chain(alloc: Global, bytes: Vec<u8>, shards: u32) -> Result<ChainFile, ChainFault>
    ensures gives { Gives (chain.Blocks blocks.Memory) result (chain_read shards bytes.items) }
    // What is read is spelled so, in one of the versions.
    ensures found { IfOk result (IsSpelled shards bytes.items) }
    // The price of each block, where it has one, is below 2^64.
    ensures priced { IfOk result (λ file. AllByRecursion FitsPrice file.blocks) }
    // Where the boundaries change no chunk is missing.
    ensures whole { IfOk result (λ file. (r : Reshard) → file.reshard ≡ Some r → CanReshard shards file.blocks r) }
    // What is spelled so is read, unless memory runs out.
    ensures only { (f : Files) → IsChainFile shards f → bytes.items ≡ third_bytes f
        → Gives (chain.Blocks blocks.Memory) result (Ok f) }
    ensures only_before { (version : Version) (bs : Items Blocks) → AreBlocks version shards bs
        → bytes.items ≡ blocks_spelling version bs
        → Gives (chain.Blocks blocks.Memory) result (Ok (plain_file bs)) }
{
    if begins_third(bytes.as_slice()) {
        third_file(alloc, bytes, shards)
    } else {
        plain_file(alloc, bytes, shards)
    }
}
