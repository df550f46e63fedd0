//! The chain of bytes that are there, which are judged as those of its files are.

ghost use Rattle.std.specs.Prelude.{◌≡◌, ◌+◌, Some, IfOk, length};
ghost use Rattle.nr_blocks.specs.Genesis.{IsSoundGenesis};
ghost use Rattle.nr_chainfiles.specs.Plans.{by_blocks_bytes, by_config, by_genesis_bytes, files_with};
ghost use Rattle.nr_reshard.specs.Spellings.{CanReshard};
ghost use Rattle.nr_reshard.specs.declared.reshard.Reshard.{Reshard};
ghost use Rattle.nr_shell.specs.Answers.{Judges};
ghost use Rattle.nr_shell.specs.Plans.{Answer, and_then, by_length, with_bytes};
ghost use Rattle.nr_words.specs.Command.{Names};

use crate::loading::{BLOCKS_LIMIT, ChainFiles, GENESIS_LIMIT, blocks_in, genesis_in};
use crate::refusal::ChainRefusal;
use nr_blocks::Genesis;
use nr_config::Config;
use nr_reshard::ChainFile;
use nr_shell::Stop;
use std::alloc::Global;

/// The genesis that some bytes spell, of which there are at most 64 MiB.
fn genesis_within<E: ChainRefusal>(
    alloc: Global,
    config: &Config,
    bytes: Vec<u8>,
) -> Result<Genesis, Stop<E>>
    ensures judges { Judges E.refuses (λ genesis. genesis) result
        (by_length 67108864 (E.genesis_refusal 0 0 0 0) (by_genesis_bytes E.genesis_refusal config.now) bytes.items) }
    ensures sound { IfOk result (IsSoundGenesis config.now) }
{
    if GENESIS_LIMIT < bytes.len() {
        Err(Stop::Refused(E::of_genesis(0, 0, 0, 0)))
    } else {
        genesis_in(alloc, config, &bytes)
    }
}

/// The blocks that some bytes spell, of which there are at most 256 MiB, for so many shards at first.
fn blocks_within<E: ChainRefusal>(
    alloc: Global,
    shards: u32,
    bytes: Vec<u8>,
) -> Result<ChainFile, Stop<E>>
    ensures judges { Judges E.refuses (λ file. file) result
        (by_length 268435456 (E.blocks_refusal 0 0) (by_blocks_bytes E.blocks_refusal shards) bytes.items) }
    ensures whole { IfOk result (λ file. (r : Reshard) → file.reshard ≡ Some r → CanReshard shards file.blocks r) }
{
    if BLOCKS_LIMIT < bytes.len() {
        Err(Stop::Refused(E::of_blocks(0, 0)))
    } else {
        blocks_in(alloc, shards, bytes)
    }
}

/// The chain of a configuration, a genesis, and the blocks that some bytes spell.
fn over_genesis<E: ChainRefusal>(
    alloc: Global,
    config: Config,
    genesis: Genesis,
    blocks: Vec<u8>,
) -> Result<ChainFiles, Stop<E>>
    requires { IsSoundGenesis config genesis }
    ensures judges { Judges E.refuses (λ files. files) result
        (and_then (by_length 268435456 (E.blocks_refusal 0 0)
        (by_blocks_bytes E.blocks_refusal (length genesis.layout + 1)) blocks.items)
        (λ file. Answer (files_with config genesis file))) }
    ensures sound { IfOk result (λ files. IsSoundGenesis files.config files.genesis) }
    ensures whole { IfOk result (λ files. (r : Reshard) → files.file.reshard ≡ Some r
        → CanReshard (length files.genesis.layout + 1) files.file.blocks r) }
{
    match blocks_within(alloc, genesis.layout.shards(), blocks) {
        Ok(file) => Ok(ChainFiles {
            config,
            genesis,
            file,
        }),
        Err(stop) => Err(stop),
    }
}

/// The chain of a configuration, and of the bytes of a genesis and of blocks. They are judged as `load_chain` judges
/// those of its files: at most 64 MiB and at most 256 MiB, of any version. The genesis' are let go before the blocks
/// are made.
///
/// # Errors
///
/// `Refused` with the first refusal of the two in this order, and `Memory` where memory ran out.
pub fn chain_in_bytes<E: ChainRefusal>(
    alloc: Global,
    config: Config,
    genesis: Vec<u8>,
    blocks: Vec<u8>,
) -> Result<ChainFiles, Stop<E>>
    // It is what the plan of the files leads to behind the configuration, where they have these bytes.
    ensures judges { (names : Names) → Judges E.refuses (λ files. files) result
        (with_bytes blocks.items (with_bytes genesis.items
        (by_config E.refusal E.genesis_refusal E.blocks_refusal names config))) }
    ensures sound { IfOk result (λ files. IsSoundGenesis files.config files.genesis) }
    // Where the boundaries change no chunk is missing.
    ensures whole { IfOk result (λ files. (r : Reshard) → files.file.reshard ≡ Some r
        → CanReshard (length files.genesis.layout + 1) files.file.blocks r) }
{
    match genesis_within(alloc, &config, genesis) {
        Ok(genesis) => over_genesis(alloc, config, genesis, blocks),
        Err(stop) => Err(stop),
    }
}
