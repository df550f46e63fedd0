//! The commands of both programs, and what their words are.

ghost use Rattle.std.specs.Prelude.{◌≡◌, IfOk, IfSome, map, option_map};
ghost use Rattle.nr_words.specs.Command.{command, command_of, is_free, names_of, replay_command, replay_of};
ghost use Rattle.nr_words.specs.Command.{check_of, check_part_of, cut_of, gather_of, generate_of, join_parts_of};
ghost use Rattle.nr_words.specs.Command.{kind_of, prove_of, recheck_of, roots_of, run_of, verify_of};
ghost use Rattle.nr_words.specs.Command.{chunk_places, item_places, numbers, part_file, part_files, part_places};
ghost use Rattle.nr_words.specs.Command.{proof_file};
ghost use Rattle.nr_words.specs.Command.{replay_forms, serial_forms};
ghost use Rattle.nr_words.specs.Forms.{AllFit, FitsForm};
ghost use Rattle.nr_words.specs.Words.{CanRun, command_in, found_in, names_in, table_in, texts, value_in};

use crate::forms::{Form, Found, Place, Value};
use crate::kind::ProofKind;
use crate::reading::read_words;
use std::alloc::{AllocError, Global};

/// The words of a command.
#[derive(Clone, Copy, Debug)]
pub enum Words<'a> {
    /// `run CONFIG GENESIS BLOCKS`, `replay CONFIG GENESIS BLOCKS` or `check CONFIG GENESIS BLOCKS SCHEDULE`
    ReplayFiles(FileNames<'a>),
    /// `gen NUMBER SHARDS BLOCKS`
    GenerateInput {
        /// the number that the chain is made from
        start: u64,
        /// 1 to 16
        shards: u32,
        /// 1 to 256
        blocks: u64,
    },
    /// `roots CONFIG GENESIS BLOCKS`
    ChunkRoots(FileNames<'a>),
    /// `prove CONFIG GENESIS BLOCKS HEIGHT SHARD KIND PLACE`
    ProveItem {
        /// the chain
        files: FileNames<'a>,
        /// what is proved to stand in it
        item: ChunkItem,
    },
    /// `verify ROOT PROOF`
    VerifyProof {
        /// the root of a chunk's items, as 64 digits of base 16 in lower case
        root: &'a str,
        /// the file of the proof
        proof: &'a str,
    },
    /// `part CONFIG GENESIS BLOCKS HEIGHT SHARD COUNT NUMBER`
    CutPart {
        /// the chain
        files: FileNames<'a>,
        /// what is cut out of it
        part: StatePart,
    },
    /// `checkpart ROOT FILE`
    CheckPartFile {
        /// the root of a state, as 64 digits of base 16 in lower case
        root: &'a str,
        /// the file of the part
        file: &'a str,
    },
    /// `joinparts ROOT COUNT PREFIX`
    JoinPartFiles {
        /// the root of a state, as 64 digits of base 16 in lower case
        root: &'a str,
        /// how many parts there are, 1 to 10,000
        count: u32,
        /// what the names of their files begin with
        prefix: &'a str,
    },
    /// `gather CONFIG GENESIS BLOCKS HEIGHT SHARD`
    GatherChunk {
        /// the chain
        files: FileNames<'a>,
        /// the chunk that is gathered
        chunk: ChunkPlace,
    },
    /// `recheck CONFIG FILE`
    RecheckChunk {
        /// the configuration, or `free`
        config: &'a str,
        /// the file of the gathered chunk
        file: &'a str,
    },
}

/// The names of a replay's files; `free` names the built-in configuration.
#[derive(Clone, Copy, Debug)]
pub struct FileNames<'a> {
    /// The configuration, or `free`.
    pub config: &'a str,
    /// The genesis.
    pub genesis: &'a str,
    /// The blocks.
    pub blocks: &'a str,
    /// The schedule that drives it, where it doesn't just go to its end.
    pub schedule: Option<&'a str>,
}

/// One of a chunk's items of a kind.
#[derive(Clone, Copy, Debug)]
pub struct ChunkItem {
    /// The chunk's height.
    pub height: u64,
    /// The chunk's shard.
    pub shard: u32,
    /// The kind of the item.
    pub kind: ProofKind,
    /// Its place among the chunk's items of the kind, from 0.
    pub place: u64,
}

/// Where a chunk stands in a chain.
#[derive(Clone, Copy, Debug)]
pub struct ChunkPlace {
    /// The chunk's height.
    pub height: u64,
    /// The chunk's shard.
    pub shard: u32,
}

/// A part of a shard's state behind a chunk.
#[derive(Clone, Copy, Debug)]
pub struct StatePart {
    /// The chunk's height.
    pub height: u64,
    /// The chunk's shard.
    pub shard: u32,
    /// How many parts the state is cut into, 1 to 10,000.
    pub count: u32,
    /// The number of the part, from 0.
    pub number: u32,
}

/// The files of a replay.
const FILES: &[Place] = &[
    Place::File("CONFIG"),
    Place::File("GENESIS"),
    Place::File("BLOCKS"),
];

/// The files of a replay, and the schedule that drives it.
const SCHEDULED: &[Place] = &[
    Place::File("CONFIG"),
    Place::File("GENESIS"),
    Place::File("BLOCKS"),
    Place::File("SCHEDULE"),
];

/// The numbers that generate a chain: 64 bits, 1 to 16 shards and 1 to 256 blocks.
const NUMBERS: &[Place] = &[
    Place::Number {
        name: "NUMBER",
        least: 0,
        most: 18_446_744_073_709_551_615,
    },
    Place::Number {
        name: "SHARDS",
        least: 1,
        most: 16,
    },
    Place::Number {
        name: "BLOCKS",
        least: 1,
        most: 256,
    },
];

/// A chain, and the place of an item in one of its chunks.
const ITEM: &[Place] = &[
    Place::File("CONFIG"),
    Place::File("GENESIS"),
    Place::File("BLOCKS"),
    Place::Number {
        name: "HEIGHT",
        least: 0,
        most: 18_446_744_073_709_551_615,
    },
    Place::Number {
        name: "SHARD",
        least: 0,
        most: 4_294_967_295,
    },
    Place::OneOf {
        name: "KIND",
        words: &["outcome", "receipt"],
    },
    Place::Number {
        name: "PLACE",
        least: 0,
        most: 18_446_744_073_709_551_615,
    },
];

/// A chain, and a part of the state behind one of its chunks.
const PART: &[Place] = &[
    Place::File("CONFIG"),
    Place::File("GENESIS"),
    Place::File("BLOCKS"),
    Place::Number {
        name: "HEIGHT",
        least: 0,
        most: 18_446_744_073_709_551_615,
    },
    Place::Number {
        name: "SHARD",
        least: 0,
        most: 4_294_967_295,
    },
    Place::Number {
        name: "COUNT",
        least: 1,
        most: 10_000,
    },
    Place::Number {
        name: "NUMBER",
        least: 0,
        most: 9_999,
    },
];

/// A chain, and one of its chunks.
const CHUNK: &[Place] = &[
    Place::File("CONFIG"),
    Place::File("GENESIS"),
    Place::File("BLOCKS"),
    Place::Number {
        name: "HEIGHT",
        least: 0,
        most: 18_446_744_073_709_551_615,
    },
    Place::Number {
        name: "SHARD",
        least: 0,
        most: 4_294_967_295,
    },
];

/// A configuration, and the file of a gathered chunk.
const GATHERED: &[Place] = &[Place::File("CONFIG"), Place::File("FILE")];

/// A root of items, and the file of a proof.
const PROOF_FILE: &[Place] = &[Place::Digits("ROOT"), Place::File("PROOF")];

/// A root of a state, and the file of a part.
const PART_FILE: &[Place] = &[Place::Digits("ROOT"), Place::File("FILE")];

/// A root of a state, and the files of all its parts.
const PART_FILES: &[Place] = &[
    Place::Digits("ROOT"),
    Place::Number {
        name: "COUNT",
        least: 1,
        most: 10_000,
    },
    Place::File("PREFIX"),
];

/// The commands of a serial run.
const SERIAL: &[Form] = &[
    Form {
        verb: "run",
        places: FILES,
    },
    Form {
        verb: "check",
        places: SCHEDULED,
    },
    Form {
        verb: "gen",
        places: NUMBERS,
    },
    Form {
        verb: "roots",
        places: FILES,
    },
    Form {
        verb: "prove",
        places: ITEM,
    },
    Form {
        verb: "verify",
        places: PROOF_FILE,
    },
    Form {
        verb: "part",
        places: PART,
    },
    Form {
        verb: "checkpart",
        places: PART_FILE,
    },
    Form {
        verb: "joinparts",
        places: PART_FILES,
    },
    Form {
        verb: "gather",
        places: CHUNK,
    },
    Form {
        verb: "recheck",
        places: GATHERED,
    },
];

/// The commands of a replay by threads.
const REPLAY: &[Form] = &[
    Form {
        verb: "replay",
        places: FILES,
    },
    Form {
        verb: "gen",
        places: NUMBERS,
    },
];

fn serial_forms() -> &'static [Form]
    ensures { table_in result.now ≡ serial_forms }
{
    SERIAL
}

fn replay_forms() -> &'static [Form]
    ensures { table_in result.now ≡ replay_forms }
{
    REPLAY
}

/// The word for the built-in configuration, which loads nothing.
pub fn is_free(word: &str) -> bool
    ensures { result ≡ is_free word.now }
{
    word == "free"
}

/// The files of a chain that goes to its end.
fn names_of<'a>(config: &'a str, genesis: &'a str, blocks: &'a str) -> FileNames<'a>
    ensures { names_in result ≡ names_of config.now genesis.now blocks.now }
{
    FileNames {
        config,
        genesis,
        blocks,
        schedule: None,
    }
}

/// The replay of blocks over a genesis under a configuration.
fn run_of<'a>(values: &[Value<'a>]) -> Option<Words<'a>>
    ensures command { option_map command_in result ≡ run_of (map value_in values.now) }
    ensures can_run { IfSome result CanRun }
{
    match values {
        [
            Value::Text(config),
            Value::Text(genesis),
            Value::Text(blocks),
        ] => Some(Words::ReplayFiles(names_of(config, genesis, blocks))),
        _ => None,
    }
}

/// The same by a schedule.
fn check_of<'a>(values: &[Value<'a>]) -> Option<Words<'a>>
    ensures command { option_map command_in result ≡ check_of (map value_in values.now) }
    ensures can_run { IfSome result CanRun }
{
    match values {
        [
            Value::Text(config),
            Value::Text(genesis),
            Value::Text(blocks),
            Value::Text(schedule),
        ] => Some(Words::ReplayFiles(FileNames {
            config,
            genesis,
            blocks,
            schedule: Some(schedule),
        })),
        _ => None,
    }
}

/// The run of a chain that three numbers generate.
fn generate_of<'a>(values: &[Value<'a>]) -> Option<Words<'a>>
    requires { AllFit numbers (map value_in values.now) }
    ensures command { option_map command_in result ≡ generate_of (map value_in values.now) }
    ensures can_run { IfSome result CanRun }
{
    match values {
        [
            Value::Number(start),
            Value::Number(shards),
            Value::Number(blocks),
        ] => Some(Words::GenerateInput {
            start: *start,
            shards: *shards as u32,
            blocks: *blocks,
        }),
        _ => None,
    }
}

/// The roots of a chain's chunks.
fn roots_of<'a>(values: &[Value<'a>]) -> Option<Words<'a>>
    ensures command { option_map command_in result ≡ roots_of (map value_in values.now) }
    ensures can_run { IfSome result CanRun }
{
    match values {
        [
            Value::Text(config),
            Value::Text(genesis),
            Value::Text(blocks),
        ] => Some(Words::ChunkRoots(names_of(config, genesis, blocks))),
        _ => None,
    }
}

/// The kind of this number among the words of its place.
fn kind_of(number: usize) -> Option<ProofKind>
    ensures { result ≡ kind_of number }
{
    match number {
        0 => Some(ProofKind::Outcome),
        1 => Some(ProofKind::Receipt),
        _ => None,
    }
}

/// The proof of an item in a chain.
fn prove_of<'a>(values: &[Value<'a>]) -> Option<Words<'a>>
    requires { AllFit item_places (map value_in values.now) }
    ensures command { option_map command_in result ≡ prove_of (map value_in values.now) }
    ensures can_run { IfSome result CanRun }
{
    match values {
        [
            Value::Text(config),
            Value::Text(genesis),
            Value::Text(blocks),
            Value::Number(height),
            Value::Number(shard),
            Value::Choice(kind),
            Value::Number(place),
        ] => match kind_of(*kind) {
            Some(kind) => Some(Words::ProveItem {
                files: names_of(config, genesis, blocks),
                item: ChunkItem {
                    height: *height,
                    shard: *shard as u32,
                    kind,
                    place: *place,
                },
            }),
            None => None,
        },
        _ => None,
    }
}

/// Whether a proof leads to a root.
fn verify_of<'a>(values: &[Value<'a>]) -> Option<Words<'a>>
    requires { AllFit proof_file (map value_in values.now) }
    ensures command { option_map command_in result ≡ verify_of (map value_in values.now) }
    ensures can_run { IfSome result CanRun }
{
    match values {
        [Value::Digits(root), Value::Text(proof)] => Some(Words::VerifyProof { root, proof }),
        _ => None,
    }
}

/// A part of a state in a chain, where its number is below the count of parts.
fn cut_of<'a>(values: &[Value<'a>]) -> Option<Words<'a>>
    requires { AllFit part_places (map value_in values.now) }
    ensures command { option_map command_in result ≡ cut_of (map value_in values.now) }
    ensures can_run { IfSome result CanRun }
{
    match values {
        [
            Value::Text(config),
            Value::Text(genesis),
            Value::Text(blocks),
            Value::Number(height),
            Value::Number(shard),
            Value::Number(count),
            Value::Number(number),
        ] => {
            if number < count {
                Some(Words::CutPart {
                    files: names_of(config, genesis, blocks),
                    part: StatePart {
                        height: *height,
                        shard: *shard as u32,
                        count: *count as u32,
                        number: *number as u32,
                    },
                })
            } else {
                None
            }
        }
        _ => None,
    }
}

/// Whether a part is one of a root's.
fn check_part_of<'a>(values: &[Value<'a>]) -> Option<Words<'a>>
    requires { AllFit part_file (map value_in values.now) }
    ensures command { option_map command_in result ≡ check_part_of (map value_in values.now) }
    ensures can_run { IfSome result CanRun }
{
    match values {
        [Value::Digits(root), Value::Text(file)] => Some(Words::CheckPartFile { root, file }),
        _ => None,
    }
}

/// Whether all parts make up a root.
fn join_parts_of<'a>(values: &[Value<'a>]) -> Option<Words<'a>>
    requires { AllFit part_files (map value_in values.now) }
    ensures command { option_map command_in result ≡ join_parts_of (map value_in values.now) }
    ensures can_run { IfSome result CanRun }
{
    match values {
        [
            Value::Digits(root),
            Value::Number(count),
            Value::Text(prefix),
        ] => Some(Words::JoinPartFiles {
            root,
            count: *count as u32,
            prefix,
        }),
        _ => None,
    }
}

/// What another run of one chunk of a chain needs.
fn gather_of<'a>(values: &[Value<'a>]) -> Option<Words<'a>>
    requires { AllFit chunk_places (map value_in values.now) }
    ensures command { option_map command_in result ≡ gather_of (map value_in values.now) }
    ensures can_run { IfSome result CanRun }
{
    match values {
        [
            Value::Text(config),
            Value::Text(genesis),
            Value::Text(blocks),
            Value::Number(height),
            Value::Number(shard),
        ] => Some(Words::GatherChunk {
            files: names_of(config, genesis, blocks),
            chunk: ChunkPlace {
                height: *height,
                shard: *shard as u32,
            },
        }),
        _ => None,
    }
}

/// Another run of a chunk that was gathered.
fn recheck_of<'a>(values: &[Value<'a>]) -> Option<Words<'a>>
    ensures command { option_map command_in result ≡ recheck_of (map value_in values.now) }
    ensures can_run { IfSome result CanRun }
{
    match values {
        [Value::Text(config), Value::Text(file)] => Some(Words::RecheckChunk { config, file }),
        _ => None,
    }
}

/// The command that a form of a serial run is with its values.
fn command_of<'a>(found: &Found<'a>) -> Option<Words<'a>>
    requires { FitsForm serial_forms (found_in found.now) }
    ensures command { option_map command_in result ≡ command_of (found_in found.now) }
    ensures can_run { IfSome result CanRun }
{
    let values = found.values.as_slice();
    match found.verb {
        "run" => run_of(values),
        "check" => check_of(values),
        "gen" => generate_of(values),
        "roots" => roots_of(values),
        "prove" => prove_of(values),
        "verify" => verify_of(values),
        "part" => cut_of(values),
        "checkpart" => check_part_of(values),
        "joinparts" => join_parts_of(values),
        "gather" => gather_of(values),
        "recheck" => recheck_of(values),
        _ => None,
    }
}

/// The same of a form of a replay by threads.
fn replay_of<'a>(found: &Found<'a>) -> Option<Words<'a>>
    requires { FitsForm replay_forms (found_in found.now) }
    ensures command { option_map command_in result ≡ replay_of (found_in found.now) }
    ensures can_run { IfSome result CanRun }
{
    let values = found.values.as_slice();
    match found.verb {
        "replay" => run_of(values),
        "gen" => generate_of(values),
        _ => None,
    }
}

/// The command that the words of a serial run are: `run CONFIG GENESIS BLOCKS`,
/// `check CONFIG GENESIS BLOCKS SCHEDULE`, `gen NUMBER SHARDS BLOCKS`, `roots CONFIG GENESIS BLOCKS`,
/// `prove CONFIG GENESIS BLOCKS HEIGHT SHARD KIND PLACE`, `verify ROOT PROOF`,
/// `part CONFIG GENESIS BLOCKS HEIGHT SHARD COUNT NUMBER`, `checkpart ROOT FILE`, `joinparts ROOT COUNT PREFIX`,
/// `gather CONFIG GENESIS BLOCKS HEIGHT SHARD` or `recheck CONFIG FILE`.
/// NUMBER of `gen`, HEIGHT and PLACE are below 2^64 and SHARD is below 2^32, KIND is `outcome` or `receipt`, COUNT is 1
/// to 10,000 and NUMBER of `part` below it, and ROOT has 64 digits of base 16 in lower case.
///
/// # Errors
///
/// Where memory runs out.
pub fn serial_command(alloc: Global, words: &[String]) -> Result<Option<Words<'_>>, AllocError>
    ensures command { IfOk result (λ read. option_map command_in read ≡ command (texts words.now)) }
    ensures can_run { IfOk result (λ read. IfSome read CanRun) }
{
    match read_words(alloc, "near_serial", serial_forms(), words)? {
        Some(found) => Ok(command_of(&found)),
        None => Ok(None),
    }
}

/// The command that the words of a replay by threads are: `replay CONFIG GENESIS BLOCKS` or
/// `gen NUMBER SHARDS BLOCKS`.
///
/// # Errors
///
/// Where memory runs out.
pub fn replay_command(alloc: Global, words: &[String]) -> Result<Option<Words<'_>>, AllocError>
    ensures command { IfOk result (λ read. option_map command_in read ≡ replay_command (texts words.now)) }
    ensures can_run { IfOk result (λ read. IfSome read CanRun) }
{
    match read_words(alloc, "near_replay", replay_forms(), words)? {
        Some(found) => Ok(replay_of(&found)),
        None => Ok(None),
    }
}
