//! What a blocks file of the first two versions holds, its reading and its writing.

ghost use Rattle.std.specs.Prelude.{◌≡◌, Ok};
ghost use Rattle.nr_bytes.specs.Answers.{Gives, GivesRead};
ghost use Rattle.nr_bytes.specs.Numbers.{IsBytes};
ghost use Rattle.nr_records.specs.Reading.{all_of};
ghost use Rattle.nr_records.specs.declared.fault.RecordFault.TheVariants.{Memory};
ghost use Rattle.nr_blocks.specs.Outlines.{file_outline_at};
ghost use Rattle.nr_blocks.specs.Files.{blocks_at, blocks_bytes, IsBlocksFile};
ghost use Rattle.nr_blocks.specs.FileLaws.{blocks_law};

use crate::block::Block;
use crate::block_list::{duplicate_list, read_list, write_list};
use crate::fields::version_of;
use crate::making::make_blocks;
use crate::outline::{Outline, read_outlines};
use crate::version::Version;
use nr_bytes::{List, Reader, Writer};
use nr_records::{RecordFault, Spelled};
use std::alloc::{AllocError, Global};

/// What a blocks file holds.
///
/// Its spelling begins with the bytes `NRB1` or `NRB2`, by its version. It has none where a block
/// has a price that the version hasn't, or has none where the version has one.
#[derive(Debug, PartialEq, Eq, Drop)]
pub struct BlocksFile {
    pub version: Version,
    pub blocks: List<Block>,
}

/// What a blocks file holds, with the places of its transactions.
#[derive(Drop)]
pub(crate) struct FileOutline {
    version: Version,
    blocks: List<Outline>,
}

impl Spelled for BlocksFile {
    ghost spelling = { blocks_bytes };

    ghost fits = { IsBlocksFile };

    ghost reading = { blocks_at };

    ghost law = { blocks_law };

    #[tactic(auto, unfolding(crate::specs::Files::blocks_at))]
    fn read(alloc: Global, reader: &mut Reader<'_>) -> Result<BlocksFile, RecordFault> {
        let mut ahead = reader.fork();
        let version = version_of(&mut ahead)?;
        let blocks = read_list(alloc, version, &mut ahead)?;
        *reader = ahead;
        Ok(BlocksFile { version, blocks })
    }

    fn write(&self, writer: &mut Writer) -> Result<(), AllocError> {
        match self.version {
            Version::One => writer.put_raw(b"NRB1")?,
            Version::Two => writer.put_raw(b"NRB2")?,
        }
        write_list(self.version, self.blocks.inner(), writer)
    }

    fn duplicate(&self, alloc: Global) -> Result<BlocksFile, AllocError> {
        Ok(BlocksFile {
            version: self.version,
            blocks: duplicate_list(alloc, self.blocks.inner())?,
        })
    }
}

#[tactic(auto, unfolding(crate::specs::Outlines::file_outline_at))]
fn read_outline(alloc: Global, reader: &mut Reader<'_>) -> Result<FileOutline, RecordFault>
    ensures { GivesRead Memory result reader.new (file_outline_at reader.old) }
{
    let version = version_of(reader)?;
    let blocks = read_outlines(alloc, version, reader)?;
    Ok(FileOutline { version, blocks })
}

#[tactic(auto, unfolding(nr_bytes::specs::Fields::all_of))]
fn outline_of(alloc: Global, bytes: &[u8]) -> Result<FileOutline, RecordFault>
    ensures { Gives Memory result (all_of file_outline_at bytes.now) }
{
    let mut reader = Reader::new(bytes);
    let outline = read_outline(alloc, &mut reader)?;
    reader.end()?;
    Ok(outline)
}

/// Each of some bytes is below 256.
pub fn bytes_law(_bytes: &[u8])
    ensures { IsBytes _bytes.now }
{}

/// The file that all of the bytes spell, of its outline.
fn made_file(alloc: Global, outline: FileOutline, bytes: Vec<u8>) -> Result<BlocksFile, RecordFault>
    requires outlined { all_of file_outline_at bytes.items ≡ Ok outline }
    requires bytes { IsBytes bytes.items }
    ensures { Gives Memory result (all_of blocks_at bytes.items) }
{
    let FileOutline { version, blocks } = outline;
    match make_blocks(alloc, blocks, bytes) {
        Ok(blocks) => Ok(BlocksFile { version, blocks }),
        Err(fault) => Err(fault),
    }
}

/// The blocks file that all of the bytes spell. They are read twice: the first time for its faults and for where its
/// transactions begin, and then from the end, and given back while values are made.
///
/// # Errors
///
/// The fault of the first field that can't be read; `Memory`.
pub(crate) fn decode_blocks(alloc: Global, bytes: Vec<u8>) -> Result<BlocksFile, RecordFault>
    ensures { Gives Memory result (all_of blocks_at bytes.items) }
{
    let all = bytes.as_slice();
    bytes_law(all);
    match outline_of(alloc, all) {
        Ok(outline) => made_file(alloc, outline, bytes),
        Err(fault) => Err(fault),
    }
}
