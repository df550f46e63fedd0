//! The files of a chain. Each file is loaded, read and let go before the next one, the blocks' while they are made.

ghost use Rattle.std.specs.Prelude.{◌≡◌, ◌+◌, Some, IfOk, length};
ghost use Rattle.nr_blocks.specs.Genesis.{IsSoundGenesis};
ghost use Rattle.nr_blocks.specs.declared.fault.BlocksFault.TheVariants as blocks;
ghost use Rattle.nr_blocks.specs.declared.fault.GenesisFault.TheVariants as genesis;
ghost use Rattle.nr_chainfiles.specs.Plans.{blocks_fault, blocks_plan, by_blocks_bytes, by_config, by_genesis};
ghost use Rattle.nr_chainfiles.specs.Plans.{by_genesis_bytes, chain_plan, genesis_fault, genesis_plan};
ghost use Rattle.nr_reshard.specs.Spellings.{CanReshard};
ghost use Rattle.nr_reshard.specs.declared.fault.ChainFault.TheVariants as chain;
ghost use Rattle.nr_reshard.specs.declared.reshard.Reshard.{Reshard};
ghost use Rattle.nr_shell.specs.Answers.{Follows, Judges, StopsBy};
ghost use Rattle.nr_words.specs.Words.{names_in};

use crate::refusal::ChainRefusal;
use nr_blocks::{BlocksFault, Genesis, GenesisFault, read_genesis};
use nr_bytes::Shelf;
use nr_config::Config;
use nr_configfile::config_of;
use nr_reshard::{ChainFault, ChainFile, read_chain};
use nr_shell::{Stop, load};
use nr_words::FileNames;
use std::alloc::Global;

/// The most bytes of a genesis, 64 MiB.
pub(crate) const GENESIS_LIMIT: usize = 67_108_864;

/// The most bytes of a blocks file, 256 MiB.
pub(crate) const BLOCKS_LIMIT: usize = 268_435_456;

/// What the files of a chain hold.
#[derive(Drop)]
pub struct ChainFiles {
    pub config: Config,
    /// A genesis that is sound under the configuration.
    pub genesis: Genesis,
    /// The blocks, and where the boundaries change, if they do.
    pub file: ChainFile,
}

/// Why a faulty genesis stops a command.
fn genesis_stop<E: ChainRefusal>(fault: GenesisFault) -> Stop<E>
    ensures { StopsBy E.refuses genesis.Memory (genesis_fault E.genesis_refusal) fault result }
{
    match fault {
        GenesisFault::Spelling { at } => Stop::Refused(E::of_genesis(1, at, 0, 0)),
        GenesisFault::Duplicate { index } => Stop::Refused(E::of_genesis(2, index, 0, 0)),
        GenesisFault::NoOwner { index } => Stop::Refused(E::of_genesis(3, index, 0, 0)),
        GenesisFault::Usage {
            index,
            stated,
            counted,
        } => Stop::Refused(E::of_genesis(4, index, stated, counted)),
        GenesisFault::Supply => Stop::Refused(E::of_genesis(5, 0, 0, 0)),
        GenesisFault::CodeHash { index } => Stop::Refused(E::of_genesis(6, index, 0, 0)),
        GenesisFault::Memory => Stop::Memory,
    }
}

/// Why faulty blocks stop a command.
fn blocks_stop<E: ChainRefusal>(fault: ChainFault) -> Stop<E>
    ensures { StopsBy E.refuses (chain.Blocks blocks.Memory) (blocks_fault E.blocks_refusal) fault result }
{
    match fault {
        ChainFault::Blocks(BlocksFault::Spelling { at }) => Stop::Refused(E::of_blocks(1, at)),
        ChainFault::Blocks(BlocksFault::ShardCount { height }) => Stop::Refused(E::of_blocks(
            2, height,
        )),
        ChainFault::Blocks(BlocksFault::HeightOrder { height }) => Stop::Refused(E::of_blocks(
            3, height,
        )),
        ChainFault::Blocks(BlocksFault::TooMany) => Stop::Refused(E::of_blocks(4, 0)),
        ChainFault::Blocks(BlocksFault::Stake { at }) => Stop::Refused(E::of_blocks(5, at)),
        ChainFault::Blocks(BlocksFault::Memory) => Stop::Memory,
        ChainFault::Reshard { height } => Stop::Refused(E::of_blocks(6, height)),
    }
}

/// The genesis that some bytes spell.
pub(crate) fn genesis_in<E: ChainRefusal>(
    alloc: Global,
    config: &Config,
    bytes: &[u8],
) -> Result<Genesis, Stop<E>>
    ensures judges { Judges E.refuses (λ genesis. genesis) result
        (by_genesis_bytes E.genesis_refusal config.now bytes.now) }
    ensures sound { IfOk result (IsSoundGenesis config.now) }
{
    match read_genesis(alloc, bytes, config) {
        Ok(genesis) => Ok(genesis),
        Err(fault) => Err(genesis_stop(fault)),
    }
}

/// The genesis of a file.
fn genesis_of<E: ChainRefusal, S: Shelf>(
    alloc: Global,
    config: &Config,
    name: &str,
    shelf: &mut S,
) -> Result<Genesis, Stop<E>>
    ensures follows { Follows E.refuses (λ genesis. genesis) (S.held shelf.old) (S.held shelf.new)
        (S.asked shelf.old) (S.asked shelf.new) (S.faults shelf.old) (S.faults shelf.new)
        result (genesis_plan E.genesis_refusal config.now name.now) }
    ensures sound { IfOk result (IsSoundGenesis config.now) }
{
    match load(alloc, name, GENESIS_LIMIT, E::of_genesis(0, 0, 0, 0), shelf) {
        Ok(bytes) => genesis_in(alloc, config, &bytes),
        Err(stop) => Err(stop),
    }
}

/// The blocks that some bytes spell, for so many shards at first.
pub(crate) fn blocks_in<E: ChainRefusal>(
    alloc: Global,
    shards: u32,
    bytes: Vec<u8>,
) -> Result<ChainFile, Stop<E>>
    ensures judges { Judges E.refuses (λ file. file) result (by_blocks_bytes E.blocks_refusal shards bytes.items) }
    ensures whole { IfOk result (λ file. (r : Reshard) → file.reshard ≡ Some r → CanReshard shards file.blocks r) }
{
    match read_chain(alloc, bytes, shards) {
        Ok(file) => Ok(file),
        Err(fault) => Err(blocks_stop(fault)),
    }
}

/// The blocks of a file, for the shards of a genesis.
fn blocks_of<E: ChainRefusal, S: Shelf>(
    alloc: Global,
    genesis: &Genesis,
    name: &str,
    shelf: &mut S,
) -> Result<ChainFile, Stop<E>>
    ensures follows { Follows E.refuses (λ file. file) (S.held shelf.old) (S.held shelf.new)
        (S.asked shelf.old) (S.asked shelf.new) (S.faults shelf.old) (S.faults shelf.new)
        result (blocks_plan E.blocks_refusal (length genesis.now.layout + 1) name.now) }
    ensures whole { IfOk result (λ file. (r : Reshard) → file.reshard ≡ Some r
        → CanReshard (length genesis.now.layout + 1) file.blocks r) }
{
    match load(alloc, name, BLOCKS_LIMIT, E::of_blocks(0, 0), shelf) {
        Ok(bytes) => blocks_in(alloc, genesis.layout.shards(), bytes),
        Err(stop) => Err(stop),
    }
}

/// The files of a configuration, a genesis and the blocks of a file.
fn with_blocks<E: ChainRefusal, S: Shelf>(
    alloc: Global,
    config: Config,
    genesis: Genesis,
    names: &FileNames<'_>,
    shelf: &mut S,
) -> Result<ChainFiles, Stop<E>>
    requires { IsSoundGenesis config genesis }
    ensures follows { Follows E.refuses (λ files. files) (S.held shelf.old) (S.held shelf.new)
        (S.asked shelf.old) (S.asked shelf.new) (S.faults shelf.old) (S.faults shelf.new)
        result (by_genesis E.refusal E.genesis_refusal E.blocks_refusal (names_in names.now) config genesis) }
    ensures sound { IfOk result (λ files. IsSoundGenesis files.config files.genesis) }
    ensures whole { IfOk result (λ files. (r : Reshard) → files.file.reshard ≡ Some r
        → CanReshard (length files.genesis.layout + 1) files.file.blocks r) }
{
    match blocks_of(alloc, &genesis, names.blocks, shelf) {
        Ok(file) => Ok(ChainFiles {
            config,
            genesis,
            file,
        }),
        Err(stop) => Err(stop),
    }
}

/// The files of a configuration, and of a genesis and blocks of files.
fn with_genesis<E: ChainRefusal, S: Shelf>(
    alloc: Global,
    config: Config,
    names: &FileNames<'_>,
    shelf: &mut S,
) -> Result<ChainFiles, Stop<E>>
    ensures follows { Follows E.refuses (λ files. files) (S.held shelf.old) (S.held shelf.new)
        (S.asked shelf.old) (S.asked shelf.new) (S.faults shelf.old) (S.faults shelf.new)
        result (by_config E.refusal E.genesis_refusal E.blocks_refusal (names_in names.now) config) }
    ensures sound { IfOk result (λ files. IsSoundGenesis files.config files.genesis) }
    ensures whole { IfOk result (λ files. (r : Reshard) → files.file.reshard ≡ Some r
        → CanReshard (length files.genesis.layout + 1) files.file.blocks r) }
{
    match genesis_of(alloc, &config, names.genesis, shelf) {
        Ok(genesis) => with_blocks(alloc, config, genesis, names, shelf),
        Err(stop) => Err(stop),
    }
}

/// What the files of a chain hold that a command names: a configuration, which is `free`, the built-in one, or a file
/// of at most 1 MiB, a genesis of at most 64 MiB, and blocks of at most 256 MiB, of any version. A file is loaded after
/// all before it have passed, and let go before the next one.
///
/// # Errors
///
/// `Refused` with the first refusal of the three files in this order, `Unread` where a file could not be read, and
/// `Memory` where memory ran out.
pub fn load_chain<E: ChainRefusal, S: Shelf>(
    alloc: Global,
    names: &FileNames<'_>,
    shelf: &mut S,
) -> Result<ChainFiles, Stop<E>>
    ensures follows { Follows E.refuses (λ files. files) (S.held shelf.old) (S.held shelf.new)
        (S.asked shelf.old) (S.asked shelf.new) (S.faults shelf.old) (S.faults shelf.new)
        result (chain_plan E.refusal E.genesis_refusal E.blocks_refusal (names_in names.now)) }
    ensures sound { IfOk result (λ files. IsSoundGenesis files.config files.genesis) }
    // Where the boundaries change no chunk is missing.
    ensures whole { IfOk result (λ files. (r : Reshard) → files.file.reshard ≡ Some r
        → CanReshard (length files.genesis.layout + 1) files.file.blocks r) }
{
    match config_of::<E, S>(alloc, names.config, shelf) {
        Ok(config) => with_genesis(alloc, config, names, shelf),
        Err(stop) => Err(stop),
    }
}
