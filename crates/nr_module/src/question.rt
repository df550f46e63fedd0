//! What the files of a command give.

ghost use Rattle.nr_shell.specs.Answers.{Follows};
ghost use Rattle.nr_module.specs.Answers.{refuses};
ghost use Rattle.nr_module.specs.Command.{call_in, names_in, named_request};
ghost use Rattle.nr_module.specs.Plans.{by_config, call_plan, code_plan, due_in, module_plan, shown_in, shown_plan};
ghost use Rattle.nr_module.specs.Plans.{tried_in};

use crate::command::{CallNames, FileNames, View, Work};
use crate::status::Status;
use nr_bytes::Shelf;
use nr_config::Config;
use nr_configfile::config_of;
use nr_shell::{Stop, load};
use std::alloc::Global;

/// The most bytes of a module's file, 64 MiB.
const FILE_LIMIT: usize = 67_108_864;

/// The bytes of a module's file, the configuration that judges them, and what is done with the module.
#[derive(Drop)]
pub(crate) struct Question<'a> {
    pub(crate) config: Config,
    pub(crate) work: Work<'a>,
    pub(crate) bytes: Vec<u8>,
}

/// The bytes of a module's file, and what the module is shown as.
#[derive(Drop)]
pub(crate) struct Shown {
    pub(crate) view: View,
    pub(crate) bytes: Vec<u8>,
}

/// The bytes of a contract's file, and the configuration under which it is called.
#[derive(Drop)]
pub(crate) struct Loaded {
    pub(crate) config: Config,
    pub(crate) code: Vec<u8>,
}

/// What the module's file gives under a configuration.
fn with_file<'a, S: Shelf>(
    alloc: Global,
    config: Config,
    names: &FileNames<'a>,
    shelf: &mut S,
) -> Result<Question<'a>, Stop<Status>>
    ensures { Follows refuses due_in (S.held shelf.old) (S.held shelf.new)
        (S.asked shelf.old) (S.asked shelf.new) (S.faults shelf.old) (S.faults shelf.new)
        result (by_config (names_in names.now) config) }
{
    match load(alloc, names.file, FILE_LIMIT, Status::Faulty, shelf) {
        Ok(bytes) => Ok(Question {
            config,
            work: names.work,
            bytes,
        }),
        Err(stop) => Err(stop),
    }
}

/// The bytes of a file whose module is to be shown.
///
/// # Errors
///
/// `Refused` with `Faulty` where the file is longer than 64 MiB; `Unread` where it could not be read, and `Memory`
/// where memory ran out.
pub(crate) fn shown_of<S: Shelf>(
    alloc: Global,
    view: View,
    file: &str,
    shelf: &mut S,
) -> Result<Shown, Stop<Status>>
    ensures { Follows refuses shown_in (S.held shelf.old) (S.held shelf.new)
        (S.asked shelf.old) (S.asked shelf.new) (S.faults shelf.old) (S.faults shelf.new)
        result (shown_plan view file.now) }
{
    match load(alloc, file, FILE_LIMIT, Status::Faulty, shelf) {
        Ok(bytes) => Ok(Shown { view, bytes }),
        Err(stop) => Err(stop),
    }
}

/// What the files that a command names give.
///
/// # Errors
///
/// `Refused` with the configuration's fault, or with `Faulty` where the module's file is longer than 64 MiB; `Unread`
/// where a file could not be read, and `Memory` where memory ran out.
pub(crate) fn question_of<'a, S: Shelf>(
    alloc: Global,
    names: &FileNames<'a>,
    shelf: &mut S,
) -> Result<Question<'a>, Stop<Status>>
    ensures { Follows refuses due_in (S.held shelf.old) (S.held shelf.new)
        (S.asked shelf.old) (S.asked shelf.new) (S.faults shelf.old) (S.faults shelf.new)
        result (module_plan (names_in names.now)) }
{
    match config_of::<Status, S>(alloc, names.config, shelf) {
        Ok(config) => with_file(alloc, config, names, shelf),
        Err(stop) => Err(stop),
    }
}

/// What the contract's file gives under a configuration.
fn with_code<S: Shelf>(
    alloc: Global,
    config: Config,
    names: &CallNames<'_>,
    shelf: &mut S,
) -> Result<Loaded, Stop<Status>>
    ensures { Follows refuses (tried_in (named_request names.now)) (S.held shelf.old) (S.held shelf.new)
        (S.asked shelf.old) (S.asked shelf.new) (S.faults shelf.old) (S.faults shelf.new)
        result (code_plan (call_in names.now) config) }
{
    match load(alloc, names.file, FILE_LIMIT, Status::Faulty, shelf) {
        Ok(code) => Ok(Loaded { config, code }),
        Err(stop) => Err(stop),
    }
}

/// What the files that a call names give.
///
/// # Errors
///
/// As `question_of` for a check or a run.
pub(crate) fn loaded_of<S: Shelf>(
    alloc: Global,
    names: &CallNames<'_>,
    shelf: &mut S,
) -> Result<Loaded, Stop<Status>>
    ensures { Follows refuses (tried_in (named_request names.now)) (S.held shelf.old) (S.held shelf.new)
        (S.asked shelf.old) (S.asked shelf.new) (S.faults shelf.old) (S.faults shelf.new)
        result (call_plan (call_in names.now)) }
{
    match config_of::<Status, S>(alloc, names.config, shelf) {
        Ok(config) => with_code(alloc, config, names, shelf),
        Err(stop) => Err(stop),
    }
}
