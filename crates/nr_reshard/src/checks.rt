//! What must hold of blocks beside their spelling.

ghost use Rattle.std.specs.List.{list_all};
ghost use Rattle.std.specs.Prelude.{◌≡◌, ℕ, is_some, slice_get};
ghost use Rattle.nr_blocks.specs.Judging.{each};
ghost use Rattle.nr_reshard.specs.Judging.{has_all, has_chunks_by, laid_out, may_reshard, ordered_by, reshards};
ghost use Rattle.nr_reshard.specs.Judging.{shards_at};

use crate::chain_file::ChainFile;
use crate::fault::ChainFault;
use crate::reshard::Reshard;
use nr_blocks::{Block, BlocksFault, MOST_BLOCKS, check_all_heights};

/// How many shards there are at a height.
fn shards_at(first: u32, reshard: &Option<Reshard>, height: u64) -> u32
    ensures { result ≡ shards_at first reshard.now height }
{
    match reshard {
        None => first,
        Some(reshard) => {
            if height < reshard.height.0 {
                first
            } else {
                reshard.layout.shards()
            }
        }
    }
}

fn check_chunks(block: &Block, first: u32, reshard: &Option<Reshard>) -> Result<(), BlocksFault>
    ensures { (n : ℕ) → result ≡ has_chunks_by (shards_at first reshard.now) n block.now }
{
    let height = block.height.0;
    if block.chunks.inner().len() == shards_at(first, reshard, height) as usize {
        Ok(())
    } else {
        Err(BlocksFault::ShardCount { height })
    }
}

/// Each block has as many chunks as there are shards at the height that it states.
#[tactic(auto, using(nr_blocks::proofs::Turns::each_begins, nr_blocks::proofs::Turns::each_goes_on, nr_blocks::proofs::Turns::each_stops, nr_blocks::proofs::Turns::each_ends))]
fn check_all_chunks(
    blocks: &[Block],
    first: u32,
    reshard: &Option<Reshard>,
) -> Result<(), BlocksFault>
    ensures { result ≡ each (has_chunks_by (shards_at first reshard.now)) blocks.now }
{
    for index in 0..blocks.len() {
        check_chunks(&blocks[index], first, reshard)?;
    }
    Ok(())
}

/// Each block has a chunk for each shard, the heights count from 1, and there are not too many.
#[tactic(auto, unfolding(crate::specs::Judging::ordered_by))]
fn check_order(blocks: &[Block], first: u32, reshard: &Option<Reshard>) -> Result<(), BlocksFault>
    ensures { result ≡ ordered_by (shards_at first reshard.now) blocks.now }
{
    check_all_chunks(blocks, first, reshard)?;
    check_all_heights(blocks)?;
    if blocks.len() > MOST_BLOCKS {
        return Err(BlocksFault::TooMany);
    }
    Ok(())
}

/// Whether no chunk of the block is missing.
fn is_whole(block: &Block) -> bool
    ensures { result ≡ list_all is_some block.now.chunks }
{
    block.chunks.inner().iter().all(|chunk| chunk.is_some())
}

/// Whether there is such a block and no chunk of it is missing.
fn has_all(blocks: &[Block], index: usize) -> bool
    ensures { result ≡ has_all (slice_get blocks.now index) }
{
    match blocks.get(index) {
        Some(block) => is_whole(block),
        None => false,
    }
}

/// Whether the boundaries may change at this height.
fn may_reshard(blocks: &[Block], height: u64) -> bool
    ensures { result ≡ may_reshard blocks.now height }
{
    if height < 2 || height > blocks.len() as u64 {
        return false;
    }
    let number = height as usize;
    has_all(blocks, number - 2) && has_all(blocks, number - 1)
}

fn check_reshard(blocks: &[Block], reshard: &Option<Reshard>) -> Result<(), ChainFault>
    ensures { result ≡ reshards blocks.now reshard.now }
{
    match reshard {
        None => Ok(()),
        Some(reshard) => {
            let height = reshard.height.0;
            if may_reshard(blocks, height) {
                Ok(())
            } else {
                Err(ChainFault::Reshard { height })
            }
        }
    }
}

/// The blocks are in order, and where the boundaries change no chunk is missing.
#[tactic(auto, unfolding(crate::specs::Judging::laid_out))]
pub(crate) fn check_file(file: &ChainFile, first: u32) -> Result<(), ChainFault>
    ensures { result ≡ laid_out first file.now }
{
    check_order(file.blocks.inner(), first, &file.reshard)?;
    check_reshard(file.blocks.inner(), &file.reshard)?;
    Ok(())
}
