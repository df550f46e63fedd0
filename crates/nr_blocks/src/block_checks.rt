//! What must hold of blocks beside their spelling.

ghost use Rattle.std.specs.Prelude.{◌≡◌, ℕ};
ghost use Rattle.nr_blocks.specs.Judging.{each, has_chunks, has_height, ordered};

use crate::block::Block;
use crate::fault::BlocksFault;

/// The most blocks that a file may have, and so a run.
pub const MOST_BLOCKS: usize = 100_000;

fn check_chunks(block: &Block, shards: u32) -> Result<(), BlocksFault>
    ensures { (n : ℕ) → result ≡ has_chunks shards n block.now }
{
    if block.chunks.inner().len() == shards as usize {
        Ok(())
    } else {
        let height = block.height.0;
        Err(BlocksFault::ShardCount { height })
    }
}

/// Each block has as many chunks as there are shards.
#[tactic(auto, using(crate::proofs::Turns::each_begins, crate::proofs::Turns::each_goes_on, crate::proofs::Turns::each_stops, crate::proofs::Turns::each_ends))]
fn check_all_chunks(blocks: &[Block], shards: u32) -> Result<(), BlocksFault>
    ensures { result ≡ each (has_chunks shards) blocks.now }
{
    for index in 0..blocks.len() {
        check_chunks(&blocks[index], shards)?;
    }
    Ok(())
}

fn check_height(index: usize, block: &Block) -> Result<(), BlocksFault>
    ensures { result ≡ has_height index block.now }
{
    let height = block.height.0;
    if u128::from(height) == index as u128 + 1 {
        Ok(())
    } else {
        Err(BlocksFault::HeightOrder { height })
    }
}

/// Checks that the heights count from 1.
///
/// # Errors
///
/// `HeightOrder` with the height of the first block that states another one than its place.
#[tactic(auto, using(crate::proofs::Turns::each_begins, crate::proofs::Turns::each_goes_on, crate::proofs::Turns::each_stops, crate::proofs::Turns::each_ends))]
pub fn check_all_heights(blocks: &[Block]) -> Result<(), BlocksFault>
    ensures { result ≡ each has_height blocks.now }
{
    for index in 0..blocks.len() {
        check_height(index, &blocks[index])?;
    }
    Ok(())
}

/// Each block has a chunk for each shard, the heights count from 1, and there are not too many.
#[tactic(auto, unfolding(crate::specs::Judging::ordered))]
pub(crate) fn check_blocks(blocks: &[Block], shards: u32) -> Result<(), BlocksFault>
    ensures { result ≡ ordered shards blocks.now }
{
    check_all_chunks(blocks, shards)?;
    check_all_heights(blocks)?;
    if blocks.len() > MOST_BLOCKS {
        return Err(BlocksFault::TooMany);
    }
    Ok(())
}
