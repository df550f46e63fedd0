//! Blocks files of any version.

ghost use Rattle.std.specs.Prelude.{◌≡◌, ◌++◌, IfOk, drop};
ghost use Rattle.nr_bytes.specs.Answers.{Gives};
ghost use Rattle.nr_files.specs.Versions.{blocks_read, stated_bytes};
ghost use Rattle.nr_records.specs.declared.fault.RecordFault.TheVariants.{Memory};
ghost use Rattle.nr_records.specs.Options.{option_bytes};
ghost use Rattle.nr_reshard.specs.Files.{reshard_bytes, third_bytes, third_magic};

use nr_blocks::{BlocksFile, Version};
use nr_bytes::{Blob, Writer};
use nr_json::StatedBlocks;
use nr_records::{RecordFault, Spelled, decode, encode};
use nr_reshard::{ChainFile, Reshard, begins_third, decode_third};
use std::alloc::{AllocError, Global};

/// The blocks that all of the bytes spell.
///
/// # Errors
///
/// The fault of the first field that can't be read; `Memory`.
#[tactic(auto, unfolding(crate::specs::Versions::blocks_read))]
pub(crate) fn blocks_read(alloc: Global, bytes: &[u8]) -> Result<StatedBlocks, RecordFault>
    ensures { Gives Memory result (blocks_read bytes.now) }
{
    if begins_third(bytes) {
        let file = decode_third(alloc, bytes)?;
        return Ok(StatedBlocks::Third(file));
    }
    let file = decode::<BlocksFile>(alloc, bytes)?;
    Ok(StatedBlocks::Plain(file))
}

/// What stands behind so many bytes.
fn dropped(bytes: &[u8], count: usize) -> &[u8]
    ensures { result.now ≡ drop count bytes.now }
{
    if count <= bytes.len() {
        &bytes[count..]
    } else {
        &[]
    }
}

/// The word of the third version, other boundaries or none, and the bytes of the blocks.
fn joined(alloc: Global, reshard: &Option<Reshard>, blocks: &[u8]) -> Result<Blob, AllocError>
    ensures { IfOk result (λ bytes. bytes ≡ third_magic ++ (option_bytes reshard_bytes reshard.now ++ blocks.now)) }
{
    let mut writer = Writer::new(alloc);
    writer.put_raw(b"NRB3")?;
    reshard.write(&mut writer)?;
    writer.put_raw(blocks)?;
    Ok(writer.finish())
}

/// The bytes of a file of the third version. Behind its word of four bytes a file of the second one has the blocks as
/// the third has them.
#[tactic(auto, using(crate::proofs::Third::third_is))]
fn third_bytes(alloc: Global, file: ChainFile) -> Result<Blob, AllocError>
    ensures { IfOk result (λ bytes. bytes ≡ third_bytes file) }
{
    let ChainFile { reshard, blocks } = file;
    let version = Version::Two;
    let second = encode(alloc, &BlocksFile { version, blocks })?;
    joined(alloc, &reshard, dropped(second.inner(), 4))
}

/// The bytes that spell blocks.
///
/// # Errors
///
/// Where there is no memory for them.
pub(crate) fn stated_bytes(alloc: Global, file: StatedBlocks) -> Result<Blob, AllocError>
    ensures { IfOk result (λ bytes. bytes ≡ stated_bytes file) }
{
    match file {
        StatedBlocks::Plain(file) => encode(alloc, &file),
        StatedBlocks::Third(file) => third_bytes(alloc, file),
    }
}
