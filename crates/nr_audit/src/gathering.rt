//! The archive of the chain that the files of a command give.

ghost use Rattle.std.specs.Prelude.{◌≡◌, ◌<◌, ◌+◌, ◌^◌, length, Some, IfOk};
ghost use Rattle.nr_audit.specs.Answers.{refuses};
ghost use Rattle.nr_audit.specs.Archive.{archive_text};
ghost use Rattle.nr_audit.specs.Plans.{course_in, gather_plan};
ghost use Rattle.nr_blocks.specs.Genesis.{IsSoundGenesis};
ghost use Rattle.nr_chunk.specs.Runs.{chain_in};
ghost use Rattle.nr_chunk.specs.Start.{genesis_start, start_tokens};
ghost use Rattle.nr_course.specs.Course.{CanRun};
ghost use Rattle.nr_reshard.specs.Spellings.{CanReshard};
ghost use Rattle.nr_reshard.specs.declared.reshard.Reshard.{Reshard};
ghost use Rattle.nr_shell.specs.Answers.{Follows, Makes};
ghost use Rattle.nr_words.specs.Words.{names_in};

use crate::legs::archive_of;
use crate::status::Status;
use nr_blocks::Genesis;
use nr_bytes::{Blob, Shelf};
use nr_chainfiles::{ChainFiles, load_chain};
use nr_chunk::ChainRun;
use nr_chunk::laws::genesis_laws;
use nr_config::Config;
use nr_contract::ContractCaller;
use nr_course::laws::course_laws;
use nr_course::{Turn, parted};
use nr_reshard::ChainFile;
use nr_shell::Stop;
use nr_words::FileNames;
use std::alloc::{AllocError, Global};

/// The first leg of a run before its first chunk, and what follows it.
#[derive(Drop)]
struct Begun {
    chain: ChainRun<ContractCaller>,
    turn: Option<Turn>,
    /// All tokens that it starts with, which is the supply of the genesis.
    supply: u128,
}

fn block_count(file: &ChainFile) -> u64
    ensures { length file.now.blocks < 2 ^ 64 }
{
    file.blocks.inner().len() as u64
}

/// The run of files can be made: it does nothing when it runs.
fn can_run(files: &ChainFiles)
    requires { (r : Reshard) → files.now.file.reshard ≡ Some r
        → CanReshard (length files.now.genesis.layout + 1) files.now.file.blocks r }
    ensures { CanRun (course_in files.now) }
{
    course_laws();
    let _ = block_count(&files.file);
}

/// The supply of a genesis, which is all that its start has in tokens.
fn supply_of(config: &Config, genesis: &Genesis) -> u128
    requires { IsSoundGenesis config.now genesis.now }
    ensures { result ≡ start_tokens config.now (genesis_start genesis.now) }
{
    genesis_laws();
    genesis.supply
}

/// The run that files give, before its first chunk.
fn begin(files: ChainFiles) -> Result<Begun, AllocError>
    requires { IsSoundGenesis files.config files.genesis }
    ensures first { IfOk result (λ begun. chain_in begun.chain ≡ (course_in files).first) }
    ensures turn { IfOk result (λ begun. begun.turn ≡ (course_in files).turn) }
    ensures supply { IfOk result (λ begun. begun.supply ≡ start_tokens begun.chain.config begun.chain.grounds.start) }
{
    let ChainFiles {
        config,
        genesis,
        file,
    } = files;
    let supply = supply_of(&config, &genesis);
    let caller = ContractCaller::new(&config);
    let (blocks, turn) = parted(file)?;
    let chain = ChainRun::new(config, genesis, blocks, caller);
    Ok(Begun {
        chain,
        turn,
        supply,
    })
}

/// The archive of the chain that the files give.
fn gathered(alloc: Global, files: ChainFiles) -> Result<Blob, AllocError>
    requires sound { IsSoundGenesis files.config files.genesis }
    requires can { CanRun (course_in files) }
    ensures { IfOk result (λ archive. archive ≡ archive_text (course_in files)) }
{
    let begun = begin(files)?;
    let archive = archive_of(alloc, begun.chain, begun.turn, begun.supply)?;
    Ok(archive)
}

/// The same, or that memory ran out.
fn made(alloc: Global, files: ChainFiles) -> Result<Blob, Stop<Status>>
    requires sound { IsSoundGenesis files.config files.genesis }
    requires whole { (r : Reshard) → files.file.reshard ≡ Some r
        → CanReshard (length files.genesis.layout + 1) files.file.blocks r }
    ensures { Makes result (archive_text (course_in files)) }
{
    can_run(&files);
    match gathered(alloc, files) {
        Ok(archive) => Ok(archive),
        Err(_) => Err(Stop::Memory),
    }
}

/// The archive of the chain that the files give which a command names.
pub(crate) fn gather_text<S: Shelf>(
    alloc: Global,
    names: &FileNames<'_>,
    shelf: &mut S,
) -> Result<Blob, Stop<Status>>
    ensures { Follows refuses (λ text. text) (S.held shelf.old) (S.held shelf.new)
        (S.asked shelf.old) (S.asked shelf.new) (S.faults shelf.old) (S.faults shelf.new)
        result (gather_plan (names_in names.now)) }
{
    match load_chain::<Status, S>(alloc, names, shelf) {
        Ok(files) => made(alloc, files),
        Err(stop) => Err(stop),
    }
}
