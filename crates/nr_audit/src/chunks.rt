//! The files of the chunks of a height.

ghost use Rattle.std.specs.Prelude.{◌≡◌, ◌<◌, ◌+◌, ◌++◌, false, map, replicate, IfOk, OnOk};
ghost use Rattle.std.specs.List.{flat_map, range_with_len};
ghost use Rattle.nr_audit.specs.Archive.{chunk_bytes, chunk_file, chunk_files, height_files, lines_file};
ghost use Rattle.nr_chunk.specs.Chain.{rules_of};
ghost use Rattle.nr_chunk.specs.Runs.{chain_in};
ghost use Rattle.nr_extract.specs.Chunk.{gathered_chunk};
ghost use Rattle.nr_gathered.specs.Files.{gathered_bytes};
ghost use Rattle.nr_outcome.specs.Texts.{report_text};
ghost use Rattle.nr_overlap.specs.Moment.{report_at};
ghost use Rattle.nr_overlap.specs.Positions.{end_at};
ghost use Rattle.nr_tar.specs.Archive.{file_bytes};

use crate::archiving::add_named;
use nr_bytes::Blob;
use nr_chunk::{ChainRun, ChunkStore};
use nr_extract::chunk_behind;
use nr_gathered::write_gathered;
use nr_ids::{Height, ShardId};
use nr_outcome::add_lines;
use nr_overlap::{Core, Phases};
use nr_state::Caller;
use nr_trielist::Hashes;
use std::alloc::{AllocError, Global};

/// What the chunk of a shard behind a height is run again from.
fn gathered<C: Caller<ChunkStore>>(
    alloc: Global,
    core: &Core<ChainRun<C>>,
    shard: ShardId,
    below: u64,
    hashes: &mut Hashes,
) -> Result<Blob, AllocError>
    requires whole { core.now.lost ≡ false }
    requires inside { shard.0 < (rules_of (chain_in core.now.phases)).shards }
    requires places { core.now.positions ≡ replicate (rules_of (chain_in core.now.phases)).shards (end_at below) }
    requires within { below < (rules_of (chain_in core.now.phases)).heights }
    ensures { IfOk result (λ file. file ≡ gathered_bytes (gathered_chunk (chain_in core.now.phases) shard.0 below)) }
{
    let chunk = chunk_behind(alloc, core, shard, below, hashes)?;
    let mut file = Blob::of(Vec::new(alloc));
    write_gathered(alloc, &chunk, &mut file)?;
    Ok(file)
}

/// The same, where the shard has a chunk there.
fn gathered_if_there<C: Caller<ChunkStore>>(
    alloc: Global,
    core: &Core<ChainRun<C>>,
    shard: ShardId,
    below: u64,
    hashes: &mut Hashes,
) -> Result<Option<Blob>, AllocError>
    requires whole { core.now.lost ≡ false }
    requires inside { shard.0 < (rules_of (chain_in core.now.phases)).shards }
    requires places { core.now.positions ≡ replicate (rules_of (chain_in core.now.phases)).shards (end_at below) }
    requires within { below < (rules_of (chain_in core.now.phases)).heights }
    ensures { IfOk result (λ file. file ≡ chunk_bytes (chain_in core.now.phases) shard.0 below) }
{
    if core.phases().present(shard, Height(below + 1)) {
        let file = gathered(alloc, core, shard, below, hashes)?;
        Ok(Some(file))
    } else {
        Ok(None)
    }
}

/// What the chunks behind a height are run again from, by shard, where all shards stand right behind it.
pub(crate) fn gather_height<C: Caller<ChunkStore>>(
    alloc: Global,
    core: &Core<ChainRun<C>>,
    below: u64,
    hashes: &mut Hashes,
) -> Result<Vec<Option<Blob>>, AllocError>
    requires whole { core.now.lost ≡ false }
    requires places { core.now.positions ≡ replicate (rules_of (chain_in core.now.phases)).shards (end_at below) }
    requires within { below < (rules_of (chain_in core.now.phases)).heights }
    ensures { IfOk result (λ files. files.items ≡ map (λ shard. chunk_bytes (chain_in core.now.phases) shard below)
        (range_with_len 0 (rules_of (chain_in core.now.phases)).shards)) }
{
    let mut files = Vec::new(alloc);
    for shard in 0..core.phases().shards() {
        let file = gathered_if_there(alloc, core, ShardId(shard), below, hashes)?;
        files.push(file)?;
    }
    Ok(files)
}

/// The lines of a chunk; none where it isn't sealed.
fn lines_of<C: Caller<ChunkStore>>(
    alloc: Global,
    core: &Core<ChainRun<C>>,
    shard: ShardId,
    height: Height,
) -> Result<Blob, AllocError>
    ensures { let r = rules_of (chain_in core.now.phases) in
        IfOk result (λ text. text ≡ report_text (report_at r core.now.positions shard.0 height.0)) }
{
    let mut text = Blob::of(Vec::new(alloc));
    add_lines(alloc, core.report(shard, height), &mut text)?;
    Ok(text)
}

/// Appends both files of a chunk, where all shards stand right behind it.
fn add_chunk<C: Caller<ChunkStore>>(
    alloc: Global,
    core: &Core<ChainRun<C>>,
    shard: ShardId,
    below: u64,
    file: &Blob,
    archive: &mut Blob,
) -> Result<(), AllocError>
    requires inside { shard.0 < (rules_of (chain_in core.now.phases)).shards }
    requires places { core.now.positions ≡ replicate (rules_of (chain_in core.now.phases)).shards (end_at (below + 1)) }
    requires within { below < (rules_of (chain_in core.now.phases)).heights }
    requires file { file.now ≡ gathered_bytes (gathered_chunk (chain_in core.now.phases) shard.0 below) }
    ensures { OnOk result (archive.new ≡ archive.old
        ++ (file_bytes (chunk_file (chain_in core.now.phases) shard.0 below)
        ++ file_bytes (lines_file (chain_in core.now.phases) shard.0 below))) }
{
    let place = core.phases().place(Height(below + 1));
    add_named(alloc, archive, place.height, shard, ".chunk", file.inner())?;
    let lines = lines_of(alloc, core, shard, Height(below + 1))?;
    add_named(alloc, archive, place.height, shard, ".lines", lines.inner())?;
    Ok(())
}

/// Appends both files of a chunk that was gathered, if it was.
fn add_if_there<C: Caller<ChunkStore>>(
    alloc: Global,
    core: &Core<ChainRun<C>>,
    shard: ShardId,
    below: u64,
    file: &Option<Blob>,
    archive: &mut Blob,
) -> Result<(), AllocError>
    requires inside { shard.0 < (rules_of (chain_in core.now.phases)).shards }
    requires places { core.now.positions ≡ replicate (rules_of (chain_in core.now.phases)).shards (end_at (below + 1)) }
    requires within { below < (rules_of (chain_in core.now.phases)).heights }
    requires file { file.now ≡ chunk_bytes (chain_in core.now.phases) shard.0 below }
    ensures { OnOk result (archive.new ≡ archive.old
        ++ flat_map file_bytes (chunk_files (chain_in core.now.phases) shard.0 below)) }
{
    match file {
        Some(file) => {
            add_chunk(alloc, core, shard, below, file, archive)?;
            Ok(())
        }
        None => Ok(()),
    }
}

/// Appends the files of the chunks of a height that were gathered, where all shards stand right behind it.
pub(crate) fn add_height<C: Caller<ChunkStore>>(
    alloc: Global,
    core: &Core<ChainRun<C>>,
    below: u64,
    files: &[Option<Blob>],
    archive: &mut Blob,
) -> Result<(), AllocError>
    requires places { core.now.positions ≡ replicate (rules_of (chain_in core.now.phases)).shards (end_at (below + 1)) }
    requires within { below < (rules_of (chain_in core.now.phases)).heights }
    requires files { files.now ≡ map (λ shard. chunk_bytes (chain_in core.now.phases) shard below)
        (range_with_len 0 (rules_of (chain_in core.now.phases)).shards) }
    ensures { OnOk result (archive.new ≡ archive.old
        ++ flat_map file_bytes (height_files (chain_in core.now.phases) below)) }
{
    for shard in 0..core.phases().shards() {
        let file = &files[shard as usize];
        add_if_there(alloc, core, ShardId(shard), below, file, archive)?;
    }
    Ok(())
}
