//! The two commands before anything is written: one step behind another.

ghost use Rattle.std.specs.Prelude.{◌≡◌};
ghost use Rattle.nr_files.specs.Answers.{NamesLast, output_in, refuses, stopped};
ghost use Rattle.nr_shell.specs.Answers.{Follows};
ghost use Rattle.nr_jsonrun.specs.Plans.{over_both, over_config, over_genesis, ran, jsonrun_plan};
ghost use Rattle.nr_jsonrun.specs.Words.{last_name};
ghost use Rattle.nr_words.specs.Words.{names_in};

use crate::making::made;
use crate::showing::shown;
use crate::stops::run_stop;
use nr_bytes::{Blob, Shelf};
use nr_config::Config;
use nr_configfile::config_of;
use nr_files::{Halt, Output, Status, Work, at_file};
use nr_shell::Stop;
use nr_top::replay_bytes;
use nr_words::FileNames;
use std::alloc::Global;

/// The text of the run of a genesis and of blocks, or why there is none, in words.
fn ran<S: Shelf>(
    alloc: Global,
    names: &FileNames<'_>,
    config: Config,
    genesis: Blob,
    blocks: Blob,
    shelf: &mut S,
) -> Result<Blob, Stop<Status>>
    ensures { Follows refuses (λ text. text) (S.held shelf.old) (S.held shelf.new)
        (S.asked shelf.old) (S.asked shelf.new) (S.faults shelf.old) (S.faults shelf.new)
        result (ran (names_in names.now) config genesis blocks) }
{
    match replay_bytes(alloc, names, config, genesis, blocks, shelf) {
        Ok(text) => Ok(text),
        Err(stop) => Err(run_stop(alloc, stop)),
    }
}

/// This text as JSON.
fn ran_shown<S: Shelf>(
    alloc: Global,
    names: &FileNames<'_>,
    config: Config,
    genesis: Blob,
    blocks: Blob,
    shelf: &mut S,
) -> Result<Output, Stop<Status>>
    ensures { Follows refuses output_in (S.held shelf.old) (S.held shelf.new)
        (S.asked shelf.old) (S.asked shelf.new) (S.faults shelf.old) (S.faults shelf.new)
        result (over_both (names_in names.now) config genesis blocks) }
{
    match ran(alloc, names, config, genesis, blocks, shelf) {
        Ok(text) => shown(alloc, text.inner()),
        Err(stop) => Err(stop),
    }
}

/// The name of the schedule, if there is one.
fn last_name<'a>(names: &FileNames<'a>) -> &'a str
    ensures { result.now ≡ last_name (names_in names.now).schedule }
{
    match names.schedule {
        Some(schedule) => schedule,
        None => "",
    }
}

/// The same, with the file at which it stops.
fn over_both<'a, S: Shelf>(
    alloc: Global,
    names: &FileNames<'a>,
    config: Config,
    genesis: Blob,
    blocks: Blob,
    shelf: &mut S,
) -> Result<Output, Halt<'a>>
    ensures follows { Follows refuses output_in (S.held shelf.old) (S.held shelf.new)
        (S.asked shelf.old) (S.asked shelf.new) (S.faults shelf.old) (S.faults shelf.new)
        (stopped result) (over_both (names_in names.now) config genesis blocks) }
    ensures names { NamesLast result (S.asked shelf.new) }
{
    at_file(
        last_name(names),
        ran_shown(alloc, names, config, genesis, blocks, shelf),
    )
}

/// What a genesis and the text of the blocks come to.
fn over_genesis<'a, S: Shelf>(
    alloc: Global,
    names: &FileNames<'a>,
    config: Config,
    genesis: Blob,
    shelf: &mut S,
) -> Result<Output, Halt<'a>>
    ensures follows { Follows refuses output_in (S.held shelf.old) (S.held shelf.new)
        (S.asked shelf.old) (S.asked shelf.new) (S.faults shelf.old) (S.faults shelf.new)
        (stopped result) (over_genesis (names_in names.now) config genesis) }
    ensures names { NamesLast result (S.asked shelf.new) }
{
    match made(
        alloc,
        Work::MakeBlocks,
        &Config::free(),
        names.blocks,
        shelf,
    ) {
        Ok(blocks) => over_both(alloc, names, config, genesis, blocks, shelf),
        Err(halt) => Err(halt),
    }
}

/// What both texts come to under a configuration.
fn over_config<'a, S: Shelf>(
    alloc: Global,
    names: &FileNames<'a>,
    config: Config,
    shelf: &mut S,
) -> Result<Output, Halt<'a>>
    ensures follows { Follows refuses output_in (S.held shelf.old) (S.held shelf.new)
        (S.asked shelf.old) (S.asked shelf.new) (S.faults shelf.old) (S.faults shelf.new)
        (stopped result) (over_config (names_in names.now) config) }
    ensures names { NamesLast result (S.asked shelf.new) }
{
    match made(alloc, Work::MakeGenesis, &config, names.genesis, shelf) {
        Ok(genesis) => over_genesis(alloc, names, config, genesis, shelf),
        Err(halt) => Err(halt),
    }
}

/// What the files of a command come to.
///
/// # Errors
///
/// Why it stops, and at which file.
pub(crate) fn output_of<'a, S: Shelf>(
    alloc: Global,
    names: &FileNames<'a>,
    shelf: &mut S,
) -> Result<Output, Halt<'a>>
    ensures follows { Follows refuses output_in (S.held shelf.old) (S.held shelf.new)
        (S.asked shelf.old) (S.asked shelf.new) (S.faults shelf.old) (S.faults shelf.new)
        (stopped result) (jsonrun_plan (names_in names.now)) }
    ensures names { NamesLast result (S.asked shelf.new) }
{
    match config_of::<Status, S>(alloc, names.config, shelf) {
        Ok(config) => over_config(alloc, names, config, shelf),
        Err(stop) => Err(Halt {
            stop,
            file: names.config,
        }),
    }
}
