//! A block of a blocks file: what it holds, its reading and its writing.

ghost use Rattle.std.specs.Prelude.{◌≡◌, ◌++◌, IfOk, OnOk};
ghost use Rattle.nr_bytes.specs.Answers.{GivesRead};
ghost use Rattle.nr_records.specs.declared.fault.RecordFault.TheVariants.{Memory};
ghost use Rattle.nr_blocks.specs.BlocksFiles.{block_at, block_bytes, IsBlock, price_at, price_bytes, IsPrice};

use crate::version::Version;
use nr_bytes::{List, Reader, Writer};
use nr_ids::Height;
use nr_records::{RecordFault, Spelled, Transaction};
use std::alloc::{AllocError, Global};

/// A block: for each shard its transactions, or nothing where its chunk is missing.
#[derive(Debug, PartialEq, Eq, Drop)]
pub struct Block {
    /// Its number in the chain, from 1.
    pub height: Height,
    /// In nanoseconds.
    pub timestamp: u64,
    /// What a unit of gas costs in it, in the smallest unit of the ledger. None in a file of
    /// [`Version::One`] and for generated blocks; then it is the configuration's.
    pub price: Option<u64>,
    pub chunks: List<Option<List<Transaction>>>,
}

pub(crate) fn read_price(
    version: Version,
    reader: &mut Reader<'_>,
) -> Result<Option<u64>, RecordFault>
    ensures { GivesRead Memory result reader.new (price_at version reader.old) }
{
    match version {
        Version::One => Ok(None),
        Version::Two => Ok(Some(reader.u64()?)),
    }
}

/// Writes a price where the version has one. A price that the version hasn't, or the lack of one
/// that it has, has no spelling and is an error.
fn write_price(version: Version, price: Option<u64>, writer: &mut Writer) -> Result<(), AllocError>
    ensures appends { OnOk result (writer.new ≡ writer.old ++ price_bytes price) }
    ensures in_range { OnOk result (IsPrice version price) }
{
    match (version, price) {
        (Version::One, None) => Ok(()),
        (Version::Two, Some(price)) => price.write(writer),
        _ => Err(AllocError),
    }
}

/// Reads the block that stands next in a file of this version.
#[tactic(auto, unfolding(crate::specs::BlocksFiles::block_at))]
pub(crate) fn read_block(
    alloc: Global,
    version: Version,
    reader: &mut Reader<'_>,
) -> Result<Block, RecordFault>
    ensures { GivesRead Memory result reader.new (block_at version reader.old) }
{
    let height = Height(u64::read(alloc, reader)?);
    let timestamp = u64::read(alloc, reader)?;
    let price = read_price(version, reader)?;
    let chunks = List::<Option<List<Transaction>>>::read(alloc, reader)?;
    Ok(Block {
        height,
        timestamp,
        price,
        chunks,
    })
}

/// Writes a block of a file of this version.
pub(crate) fn write_block(
    version: Version,
    block: &Block,
    writer: &mut Writer,
) -> Result<(), AllocError>
    ensures appends { OnOk result (writer.new ≡ writer.old ++ block_bytes block.now) }
    ensures in_range { OnOk result (IsBlock version block.now) }
{
    block.height.0.write(writer)?;
    block.timestamp.write(writer)?;
    write_price(version, block.price, writer)?;
    block.chunks.write(writer)
}

pub(crate) fn duplicate_block(alloc: Global, block: &Block) -> Result<Block, AllocError>
    ensures { IfOk result (λ other. other ≡ block.now) }
{
    Ok(Block {
        height: block.height,
        timestamp: block.timestamp,
        price: block.price,
        chunks: block.chunks.duplicate(alloc)?,
    })
}
