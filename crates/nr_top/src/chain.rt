//! The chain that files give, before its first chunk.

ghost use Rattle.std.specs.Prelude.{◌≡◌, ◌+◌, ◌^◌, ◌<◌, Some, IfOk, length};
ghost use Rattle.nr_blocks.specs.Genesis.{IsSoundGenesis};
ghost use Rattle.nr_chunk.specs.Runs.{chain_in};
ghost use Rattle.nr_chunk.specs.Start.{genesis_start, start_tokens};
ghost use Rattle.nr_course.specs.Course.{CanRun};
ghost use Rattle.nr_reshard.specs.Spellings.{CanReshard};
ghost use Rattle.nr_reshard.specs.declared.reshard.Reshard.{Reshard};
ghost use Rattle.nr_shell.specs.Answers.{Follows};
ghost use Rattle.nr_top.specs.Answers.{refuses};
ghost use Rattle.nr_top.specs.Plans.{course_plan};
ghost use Rattle.nr_top.specs.Run.{loaded};
ghost use Rattle.nr_words.specs.Words.{names_in};

use crate::status::Status;
use nr_blocks::Genesis;
use nr_bytes::Shelf;
use nr_chainfiles::{ChainFiles, load_chain};
use nr_chunk::ChainRun;
use nr_chunk::laws::genesis_laws;
use nr_config::Config;
use nr_contract::ContractCaller;
use nr_course::laws::course_laws;
use nr_course::{Turn, parted};
use nr_reshard::ChainFile;
use nr_shell::Stop;
use nr_words::FileNames;
use std::alloc::{AllocError, Global};

/// The first leg of a run before its first chunk, and what follows it.
#[derive(Drop)]
pub struct Begun {
    pub chain: ChainRun<ContractCaller>,
    pub turn: Option<Turn>,
    /// All tokens that it starts with, which is the supply of the genesis.
    pub supply: u128,
}

fn block_count(file: &ChainFile) -> u64
    ensures { length file.now.blocks < 2 ^ 64 }
{
    file.blocks.inner().len() as u64
}

/// The run of files can be made: it does nothing when it runs.
pub(crate) fn can_run(files: &ChainFiles)
    requires { (r : Reshard) → files.now.file.reshard ≡ Some r
        → CanReshard (length files.now.genesis.layout + 1) files.now.file.blocks r }
    ensures { CanRun (loaded files.now) }
{
    course_laws();
    let _ = block_count(&files.file);
}

/// The files that a command names.
pub(crate) fn load_course<S: Shelf>(
    alloc: Global,
    names: &FileNames<'_>,
    shelf: &mut S,
) -> Result<ChainFiles, Stop<Status>>
    ensures follows { Follows refuses loaded (S.held shelf.old) (S.held shelf.new)
        (S.asked shelf.old) (S.asked shelf.new) (S.faults shelf.old) (S.faults shelf.new)
        result (course_plan (names_in names.now)) }
    ensures sound { IfOk result (λ files. IsSoundGenesis files.config files.genesis) }
    ensures can { IfOk result (λ files. CanRun (loaded files)) }
{
    match load_chain::<Status, S>(alloc, names, shelf) {
        Ok(files) => {
            can_run(&files);
            Ok(files)
        }
        Err(stop) => Err(stop),
    }
}

/// The supply of a genesis, which is all that its start has in tokens.
pub(crate) fn supply_of(config: &Config, genesis: &Genesis) -> u128
    requires { IsSoundGenesis config.now genesis.now }
    ensures { result ≡ start_tokens config.now (genesis_start genesis.now) }
{
    genesis_laws();
    genesis.supply
}

/// The run that files give, before its first chunk. It has the genesis' worlds, and the blocks up to the height from
/// which the boundaries change, if they do; the turn has the rest.
///
/// # Errors
///
/// Where memory runs out.
#[inline(never)]
pub fn begin(files: ChainFiles) -> Result<Begun, AllocError>
    requires { IsSoundGenesis files.config files.genesis }
    ensures first { IfOk result (λ begun. chain_in begun.chain ≡ (loaded files).first) }
    ensures turn { IfOk result (λ begun. begun.turn ≡ (loaded files).turn) }
    ensures supply { IfOk result (λ begun. begun.supply ≡ start_tokens begun.chain.config begun.chain.grounds.start) }
{
    let ChainFiles {
        config,
        genesis,
        file,
    } = files;
    let supply = supply_of(&config, &genesis);
    let caller = ContractCaller::new(&config);
    let (blocks, turn) = parted(file)?;
    let chain = ChainRun::new(config, genesis, blocks, caller);
    Ok(Begun {
        chain,
        turn,
        supply,
    })
}
