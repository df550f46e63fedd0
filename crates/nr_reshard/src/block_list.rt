//! Blocks with a price, one after the other.

ghost use Rattle.nr_blocks.specs.BlocksFiles.{block_at, price_at};
ghost use Rattle.nr_blocks.specs.declared.version.Version.TheVariants.{Two};
ghost use Rattle.nr_bytes.specs.Answers.{GivesAs, GivesRead};
ghost use Rattle.nr_bytes.specs.Fields.{items_at};
ghost use Rattle.nr_records.specs.Reading.{nat_at, list_at};
ghost use Rattle.nr_records.specs.declared.fault.RecordFault.TheVariants.{Memory};

use nr_blocks::Block;
use nr_bytes::{List, Reader};
use nr_ids::Height;
use nr_records::{RecordFault, Spelled, Transaction};
use std::alloc::Global;

fn price_of(reader: &mut Reader<'_>) -> Result<Option<u64>, RecordFault>
    ensures { GivesRead Memory result reader.new (price_at Two reader.old) }
{
    Ok(Some(reader.u64()?))
}

fn count_of(reader: &mut Reader<'_>) -> Result<u32, RecordFault>
    ensures { GivesRead Memory result reader.new (nat_at 4 reader.old) }
{
    Ok(reader.u32()?)
}

#[tactic(auto, unfolding(nr_blocks::specs::BlocksFiles::block_at))]
fn block_of(alloc: Global, reader: &mut Reader<'_>) -> Result<Block, RecordFault>
    ensures { GivesRead Memory result reader.new (block_at Two reader.old) }
{
    let height = Height(u64::read(alloc, reader)?);
    let timestamp = u64::read(alloc, reader)?;
    let price = price_of(reader)?;
    let chunks = List::<Option<List<Transaction>>>::read(alloc, reader)?;
    Ok(Block {
        height,
        timestamp,
        price,
        chunks,
    })
}

fn blocks_of(alloc: Global, count: u32, reader: &mut Reader<'_>) -> Result<Vec<Block>, RecordFault>
    ensures { GivesAs Memory (λ v. (v.items, reader.new)) result (items_at (block_at Two) count reader.old) }
{
    let mut blocks = Vec::new(alloc);
    for _ in 0..count {
        let block = block_of(alloc, reader)?;
        blocks.push(block)?;
    }
    Ok(blocks)
}

/// Reads the count and the blocks.
#[tactic(auto, unfolding(nr_bytes::specs::Fields::list_at))]
pub(crate) fn read_list(alloc: Global, reader: &mut Reader<'_>) -> Result<List<Block>, RecordFault>
    ensures { GivesRead Memory result reader.new (list_at (block_at Two) reader.old) }
{
    let count = count_of(reader)?;
    let blocks = blocks_of(alloc, count, reader)?;
    Ok(List::of(blocks))
}
