//! The blocks of a file, one after the other.

ghost use Rattle.std.specs.Prelude.{◌≡◌, ◌++◌, IfOk, OnOk};
ghost use Rattle.std.specs.List.{flat_map, AllByRecursion};
ghost use Rattle.nr_bytes.specs.Answers.{GivesAs, GivesRead};
ghost use Rattle.nr_bytes.specs.Fields.{items_at};
ghost use Rattle.nr_bytes.specs.Spelling.{list, FitsList};
ghost use Rattle.nr_records.specs.Reading.{list_at};
ghost use Rattle.nr_records.specs.declared.fault.RecordFault.TheVariants.{Memory};
ghost use Rattle.nr_blocks.specs.BlocksFiles.{block_at, block_bytes, IsBlock};

use crate::block::{Block, duplicate_block, read_block, write_block};
use crate::fields::count_of;
use crate::version::Version;
use nr_bytes::{List, Reader, Writer};
use nr_records::RecordFault;
use std::alloc::{AllocError, Global};

fn blocks_of(
    alloc: Global,
    version: Version,
    count: u32,
    reader: &mut Reader<'_>,
) -> Result<Vec<Block>, RecordFault>
    ensures { GivesAs Memory (λ v. (v.items, reader.new)) result (items_at (block_at version) count reader.old) }
{
    let mut blocks = Vec::new(alloc);
    for _ in 0..count {
        let block = read_block(alloc, version, reader)?;
        blocks.push(block)?;
    }
    Ok(blocks)
}

/// Reads the count and the blocks of a file of this version.
#[tactic(auto, unfolding(nr_bytes::specs::Fields::list_at))]
pub(crate) fn read_list(
    alloc: Global,
    version: Version,
    reader: &mut Reader<'_>,
) -> Result<List<Block>, RecordFault>
    ensures { GivesRead Memory result reader.new (list_at (block_at version) reader.old) }
{
    let count = count_of(reader)?;
    let blocks = blocks_of(alloc, version, count, reader)?;
    Ok(List::of(blocks))
}

fn write_blocks(version: Version, blocks: &[Block], writer: &mut Writer) -> Result<(), AllocError>
    ensures appends { OnOk result (writer.new ≡ writer.old ++ flat_map block_bytes blocks.now) }
    ensures in_range { OnOk result (AllByRecursion (IsBlock version) blocks.now) }
{
    for block in blocks {
        write_block(version, block, writer)?;
    }
    Ok(())
}

/// Writes the count and the blocks of a file of this version.
pub(crate) fn write_list(
    version: Version,
    blocks: &[Block],
    writer: &mut Writer,
) -> Result<(), AllocError>
    ensures appends { OnOk result (writer.new ≡ writer.old ++ list block_bytes blocks.now) }
    ensures in_range { OnOk result (FitsList (IsBlock version) blocks.now) }
{
    let Ok(count) = u32::try_from(blocks.len()) else {
        return Err(AllocError);
    };
    writer.put_u32(count)?;
    write_blocks(version, blocks, writer)
}

pub(crate) fn duplicate_list(alloc: Global, blocks: &[Block]) -> Result<List<Block>, AllocError>
    ensures { IfOk result (λ others. others ≡ blocks.now) }
{
    let mut others = Vec::new(alloc);
    for block in blocks {
        others.push(duplicate_block(alloc, block)?)?;
    }
    Ok(List::of(others))
}
