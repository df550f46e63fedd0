//! A file of the third version, before its blocks are judged.

ghost use Rattle.std.specs.List.{starts_with};
ghost use Rattle.std.specs.Prelude.{◌≡◌, ◌==◌, Ok};
ghost use Rattle.nr_blocks.specs.Files.{magic_at};
ghost use Rattle.nr_bytes.specs.Answers.{Gives, GivesRead};
ghost use Rattle.nr_bytes.specs.Numbers.{IsBytes};
ghost use Rattle.nr_records.specs.Reading.{all_of};
ghost use Rattle.nr_records.specs.declared.fault.RecordFault.TheVariants.{Memory};
ghost use Rattle.nr_reshard.specs.Files.{third_at, third_magic};
ghost use Rattle.nr_reshard.specs.Outlines.{third_outline_at};

use crate::block_list::read_list;
use crate::chain_file::ChainFile;
use crate::reshard::Reshard;
use nr_blocks::{Outline, Version, bytes_law, make_blocks, read_outlines};
use nr_bytes::{List, Reader};
use nr_records::{RecordFault, Spelled};
use std::alloc::Global;

/// Whether the bytes begin as a file of the third version does.
pub fn begins_third(bytes: &[u8]) -> bool
    ensures { result ≡ starts_with ◌==◌ bytes.now third_magic }
{
    bytes.starts_with(b"NRB3")
}

fn word_of(reader: &mut Reader<'_>) -> Result<[u8; 4], RecordFault>
    ensures { GivesRead Memory result reader.new (magic_at third_magic reader.old) }
{
    let at = reader.at();
    let word = reader.fixed::<4>()?;
    if b"NRB3".as_slice() != word.as_slice() {
        return Err(RecordFault::BadOrdinal { at });
    }
    Ok(word)
}

#[tactic(auto, unfolding(crate::specs::Files::third_at))]
fn file_of(alloc: Global, reader: &mut Reader<'_>) -> Result<ChainFile, RecordFault>
    ensures { GivesRead Memory result reader.new (third_at reader.old) }
{
    word_of(reader)?;
    let reshard = Option::<Reshard>::read(alloc, reader)?;
    let blocks = read_list(alloc, reader)?;
    Ok(ChainFile { reshard, blocks })
}

/// The file of the third version that all of the bytes spell, whatever its blocks are.
///
/// # Errors
///
/// The fault of the first field that can't be read; `Memory`.
#[tactic(auto, unfolding(nr_bytes::specs::Fields::all_of))]
pub fn decode_third(alloc: Global, bytes: &[u8]) -> Result<ChainFile, RecordFault>
    ensures { Gives Memory result (all_of third_at bytes.now) }
{
    let mut reader = Reader::new(bytes);
    let file = file_of(alloc, &mut reader)?;
    reader.end()?;
    Ok(file)
}

/// What a file of the third version holds, with the places of its transactions.
#[derive(Drop)]
struct ThirdOutline {
    reshard: Option<Reshard>,
    blocks: List<Outline>,
}

#[tactic(auto, unfolding(crate::specs::Outlines::third_outline_at))]
fn read_outline(alloc: Global, reader: &mut Reader<'_>) -> Result<ThirdOutline, RecordFault>
    ensures { GivesRead Memory result reader.new (third_outline_at reader.old) }
{
    word_of(reader)?;
    let reshard = Option::<Reshard>::read(alloc, reader)?;
    let blocks = read_outlines(alloc, Version::Two, reader)?;
    Ok(ThirdOutline { reshard, blocks })
}

#[tactic(auto, unfolding(nr_bytes::specs::Fields::all_of))]
fn outline_of(alloc: Global, bytes: &[u8]) -> Result<ThirdOutline, RecordFault>
    ensures { Gives Memory result (all_of third_outline_at bytes.now) }
{
    let mut reader = Reader::new(bytes);
    let outline = read_outline(alloc, &mut reader)?;
    reader.end()?;
    Ok(outline)
}

/// The file that all of the bytes spell, of its outline.
fn made_third(
    alloc: Global,
    outline: ThirdOutline,
    bytes: Vec<u8>,
) -> Result<ChainFile, RecordFault>
    requires outlined { all_of third_outline_at bytes.items ≡ Ok outline }
    requires bytes { IsBytes bytes.items }
    ensures { Gives Memory result (all_of third_at bytes.items) }
{
    let ThirdOutline { reshard, blocks } = outline;
    match make_blocks(alloc, blocks, bytes) {
        Ok(blocks) => Ok(ChainFile { reshard, blocks }),
        Err(fault) => Err(fault),
    }
}

/// The same as [`decode_third`] of bytes that are given back while values are made. They are read twice: the first time
/// for their faults and for where transactions begin, and then from the end.
///
/// # Errors
///
/// The fault of the first field that can't be read; `Memory`.
pub(crate) fn take_third(alloc: Global, bytes: Vec<u8>) -> Result<ChainFile, RecordFault>
    ensures { Gives Memory result (all_of third_at bytes.items) }
{
    let all = bytes.as_slice();
    bytes_law(all);
    match outline_of(alloc, all) {
        Ok(outline) => made_third(alloc, outline, bytes),
        Err(fault) => Err(fault),
    }
}
