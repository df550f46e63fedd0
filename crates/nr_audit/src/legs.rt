//! The archive of a run of one chain, or of two legs.

ghost use Rattle.std.specs.Prelude.{◌≡◌, ◌<◌, ◌+◌, ◌++◌, Some, false, replicate, IfOk, OnOk};
ghost use Rattle.std.specs.List.{flat_map};
ghost use Rattle.nr_audit.specs.Archive.{archive_text, course_files, height_files, leg_files, turn_files};
ghost use Rattle.nr_chunk.specs.Chain.{rules_of};
ghost use Rattle.nr_chunk.specs.Runs.{chain_in};
ghost use Rattle.nr_chunk.specs.Start.{start_tokens};
ghost use Rattle.nr_course.specs.Course.{CanRun, CanTurn, second};
ghost use Rattle.nr_course.specs.declared.turn.Turn.{Turn as Turns};
ghost use Rattle.nr_overlap.specs.Positions.{end_at};
ghost use Rattle.nr_overlap.specs.Run.{ending, opening};
ghost use Rattle.nr_tar.specs.Archive.{file_bytes};

use crate::archiving::add_bytes;
use crate::chunks::{add_height, gather_height};
use nr_bytes::Blob;
use nr_chunk::{ChainRun, ChunkStore};
use nr_course::{Turn, cross};
use nr_extract::run_up_to;
use nr_ids::Height;
use nr_outcome::Outcome;
use nr_overlap::{Core, Phases};
use nr_state::Caller;
use nr_tar::archive_end;
use nr_trielist::Hashes;
use std::alloc::{AllocError, Global};

/// Runs the chunks behind a height, right behind which all shards stand, and appends their files.
fn add_next<C: Caller<ChunkStore>>(
    alloc: Global,
    core: &mut Core<ChainRun<C>>,
    below: u64,
    hashes: &mut Hashes,
    archive: &mut Blob,
) -> Result<(), AllocError>
    requires whole { core.old.lost ≡ false }
    requires places { core.old.positions ≡ replicate (rules_of (chain_in core.old.phases)).shards (end_at below) }
    requires within { below < (rules_of (chain_in core.old.phases)).heights }
    ensures phases { OnOk result (core.new.phases ≡ core.old.phases) }
    ensures whole { OnOk result (core.new.lost ≡ false) }
    ensures places { OnOk result (core.new.positions
        ≡ replicate (rules_of (chain_in core.old.phases)).shards (end_at (below + 1))) }
    ensures archive { OnOk result (archive.new ≡ archive.old
        ++ flat_map file_bytes (height_files (chain_in core.old.phases) below)) }
{
    let files = gather_height(alloc, core, below, hashes)?;
    run_up_to(core, Height(below + 1))?;
    add_height(alloc, core, below, &files, archive)?;
    Ok(())
}

/// Runs all chunks, from before the first one, and appends their files.
fn add_heights<C: Caller<ChunkStore>>(
    alloc: Global,
    core: &mut Core<ChainRun<C>>,
    archive: &mut Blob,
) -> Result<(), AllocError>
    requires whole { core.old.lost ≡ false }
    requires first { core.old.positions ≡ opening (rules_of (chain_in core.old.phases)) }
    ensures phases { OnOk result (core.new.phases ≡ core.old.phases) }
    ensures places { OnOk result (core.new.positions ≡ ending (rules_of (chain_in core.old.phases))) }
    ensures archive { OnOk result (archive.new ≡ archive.old
        ++ flat_map file_bytes (leg_files (chain_in core.old.phases))) }
{
    let mut hashes = Hashes::new(alloc);
    for below in 0..core.phases().heights() {
        add_next(alloc, core, below, &mut hashes, archive)?;
    }
    Ok(())
}

/// Runs a chain to its end, and appends the files of its chunks.
fn add_leg<C: Caller<ChunkStore> + Drop>(
    alloc: Global,
    chain: ChainRun<C>,
    archive: &mut Blob,
) -> Result<Core<ChainRun<C>>, AllocError>
    ensures phases { IfOk result (λ core. core.phases ≡ chain) }
    ensures places { IfOk result (λ core. core.positions ≡ ending (rules_of (chain_in chain))) }
    ensures archive { OnOk result (archive.new ≡ archive.old ++ flat_map file_bytes (leg_files (chain_in chain))) }
{
    let mut core = Core::new(alloc, chain)?;
    add_heights(alloc, &mut core, archive)?;
    Ok(core)
}

/// Goes on under other boundaries where a chain is over, and appends the files of the chunks there.
fn add_turn<C: Caller<ChunkStore> + Drop>(
    alloc: Global,
    core: Core<ChainRun<C>>,
    turn: Turn,
    supply: u128,
    archive: &mut Blob,
) -> Result<(), AllocError>
    requires over { core.positions ≡ ending (rules_of (chain_in core.phases)) }
    requires can { CanTurn (chain_in core.phases) turn }
    requires supply { supply ≡ start_tokens core.phases.config core.phases.grounds.start }
    ensures { OnOk result (archive.new ≡ archive.old
        ++ flat_map file_bytes (leg_files (second (chain_in core.phases) turn))) }
{
    let outcome = Outcome::closed(alloc, core, supply)?;
    let crossed = cross(alloc, outcome, turn)?;
    add_leg(alloc, crossed.chain, archive)?;
    Ok(())
}

/// The same, if anything follows.
fn add_turn_if_any<C: Caller<ChunkStore> + Drop>(
    alloc: Global,
    core: Core<ChainRun<C>>,
    turn: Option<Turn>,
    supply: u128,
    archive: &mut Blob,
) -> Result<(), AllocError>
    requires over { core.positions ≡ ending (rules_of (chain_in core.phases)) }
    requires can { (t : Turns) → turn ≡ Some t → CanTurn (chain_in core.phases) t }
    requires supply { supply ≡ start_tokens core.phases.config core.phases.grounds.start }
    ensures { OnOk result (archive.new ≡ archive.old ++ flat_map file_bytes (turn_files (chain_in core.phases) turn)) }
{
    match turn {
        Some(turn) => add_turn(alloc, core, turn, supply, archive),
        None => Ok(()),
    }
}

/// Both legs, of which there may be one alone.
fn add_legs<C: Caller<ChunkStore> + Drop>(
    alloc: Global,
    first: ChainRun<C>,
    turn: Option<Turn>,
    supply: u128,
    archive: &mut Blob,
) -> Result<(), AllocError>
    requires can { CanRun (record { first = chain_in first; turn = turn }) }
    requires supply { supply ≡ start_tokens first.config first.grounds.start }
    ensures { OnOk result (archive.new ≡ archive.old
        ++ flat_map file_bytes (course_files (record { first = chain_in first; turn = turn }))) }
{
    let core = add_leg(alloc, first, archive)?;
    add_turn_if_any(alloc, core, turn, supply, archive)?;
    Ok(())
}

/// The archive of a run: for each chunk that there is what it is run again from, as `nr_gathered` writes it, and its
/// lines, by height and then shard. The supply is what the first leg starts with in tokens. The archive stands in
/// memory whole.
///
/// # Errors
///
/// Where memory runs out. A file of 8 GiB or more counts as that, and what counts as that in
/// `nr_extract::chunk_behind`; where the boundaries change, so does a sum that doesn't fit its number.
#[tactic(auto, unfolding(crate::specs::Archive::archive_text, nr_tar::specs::Archive::archive))]
pub fn archive_of<C: Caller<ChunkStore> + Drop>(
    alloc: Global,
    first: ChainRun<C>,
    turn: Option<Turn>,
    supply: u128,
) -> Result<Blob, AllocError>
    requires can { CanRun (record { first = chain_in first; turn = turn }) }
    requires supply { supply ≡ start_tokens first.config first.grounds.start }
    ensures { IfOk result (λ archive. archive ≡ archive_text (record { first = chain_in first; turn = turn })) }
{
    let mut archive = Blob::of(Vec::new(alloc));
    add_legs(alloc, first, turn, supply, &mut archive)?;
    add_bytes(&mut archive, archive_end())?;
    Ok(archive)
}
