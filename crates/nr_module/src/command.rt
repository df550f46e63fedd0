//! The words of the command line.

ghost use Rattle.std.specs.Prelude.{◌≡◌, IfOk, map, option_map};
ghost use Rattle.nr_words.specs.Words.{found_in, table_in, texts, value_in};
ghost use Rattle.nr_module.specs.Command.{call_of, check_of, command, command_in, found_command, paid_command};
ghost use Rattle.nr_module.specs.Command.{paid_by, paid_of, run_of, to_call, to_pay, trap_of, view_of};
ghost use Rattle.nr_module.specs.Help.{forms, paid_forms};

use crate::arguments::{args_of, deposit_of};
use crate::help::{help_text, version_text};
use nr_bytes::Blob;
use nr_words::{Form, Found, Place, Value, read_words};
use std::alloc::{AllocError, Global};

/// What is done with a module.
#[derive(Clone, Copy, Debug)]
pub(crate) enum Work<'a> {
    /// It is checked.
    Check,
    /// A method of it is run with so much gas.
    Run { method: &'a str, gas: u64 },
    /// The same, and the place of a trap is told.
    Trap { method: &'a str, gas: u64 },
}

/// The configuration, `free` or the name of a file, the module's file, and what is done with it.
#[derive(Clone, Copy, Debug)]
pub(crate) struct FileNames<'a> {
    pub(crate) config: &'a str,
    pub(crate) file: &'a str,
    pub(crate) work: Work<'a>,
}

/// What a module is shown as.
#[derive(Clone, Copy, Debug, PartialEq, Eq)]
pub(crate) enum View {
    /// Lines that tell what it imports and exports, and its sizes.
    Brief,
    /// All of it in WebAssembly's text format.
    Whole,
}

/// The configuration, `free` or the name of a file, the contract's file, and what is called, with what.
#[derive(Debug, Drop)]
pub(crate) struct CallNames<'a> {
    pub(crate) config: &'a str,
    pub(crate) file: &'a str,
    pub(crate) method: &'a str,
    pub(crate) args: Blob,
    pub(crate) gas: u64,
    pub(crate) deposit: u128,
}

/// The words of a command.
#[derive(Debug, Drop)]
pub(crate) enum Words<'a> {
    /// `check CONFIG FILE`, `run CONFIG FILE METHOD GAS` or `trap CONFIG FILE METHOD GAS`
    Module(FileNames<'a>),
    /// `call CONFIG FILE METHOD ARGS GAS`, or the same with DEPOSIT behind it
    Call(CallNames<'a>),
    /// `list FILE` or `text FILE`, by the name of the file
    Shown(View, &'a str),
    /// `help` or `version`, by the text that it writes
    Text(&'a str),
}

/// `check CONFIG FILE`, `run CONFIG FILE METHOD GAS` and `trap CONFIG FILE METHOD GAS` with a number below 2^64, `list
/// FILE`, `text FILE`, `help`, `version` and `call CONFIG FILE METHOD ARGS GAS`.
const FORMS: &[Form] = &[
    Form {
        verb: "check",
        places: &[Place::File("CONFIG"), Place::File("FILE")],
    },
    Form {
        verb: "run",
        places: &[
            Place::File("CONFIG"),
            Place::File("FILE"),
            Place::File("METHOD"),
            Place::Number {
                name: "GAS",
                least: 0,
                most: 18_446_744_073_709_551_615,
            },
        ],
    },
    Form {
        verb: "trap",
        places: &[
            Place::File("CONFIG"),
            Place::File("FILE"),
            Place::File("METHOD"),
            Place::Number {
                name: "GAS",
                least: 0,
                most: 18_446_744_073_709_551_615,
            },
        ],
    },
    Form {
        verb: "list",
        places: &[Place::File("FILE")],
    },
    Form {
        verb: "text",
        places: &[Place::File("FILE")],
    },
    Form {
        verb: "help",
        places: &[],
    },
    Form {
        verb: "version",
        places: &[],
    },
    Form {
        verb: "call",
        places: &[
            Place::File("CONFIG"),
            Place::File("FILE"),
            Place::File("METHOD"),
            Place::File("ARGS"),
            Place::Number {
                name: "GAS",
                least: 0,
                most: 18_446_744_073_709_551_615,
            },
        ],
    },
];

/// `call CONFIG FILE METHOD ARGS GAS DEPOSIT`.
const PAID_FORMS: &[Form] = &[Form {
    verb: "call",
    places: &[
        Place::File("CONFIG"),
        Place::File("FILE"),
        Place::File("METHOD"),
        Place::File("ARGS"),
        Place::Number {
            name: "GAS",
            least: 0,
            most: 18_446_744_073_709_551_615,
        },
        Place::File("DEPOSIT"),
    ],
}];

fn forms() -> &'static [Form]
    ensures { table_in result.now ≡ forms }
{
    FORMS
}

fn paid_forms() -> &'static [Form]
    ensures { table_in result.now ≡ paid_forms }
{
    PAID_FORMS
}

/// The check of a module.
fn check_of<'a>(values: &[Value<'a>]) -> Option<Words<'a>>
    ensures { option_map command_in result ≡ check_of (map value_in values.now) }
{
    match values {
        [Value::Text(config), Value::Text(file)] => Some(Words::Module(FileNames {
            config,
            file,
            work: Work::Check,
        })),
        _ => None,
    }
}

/// The run of a method.
fn run_of<'a>(values: &[Value<'a>]) -> Option<Words<'a>>
    ensures { option_map command_in result ≡ run_of (map value_in values.now) }
{
    match values {
        [
            Value::Text(config),
            Value::Text(file),
            Value::Text(method),
            Value::Number(gas),
        ] => Some(Words::Module(FileNames {
            config,
            file,
            work: Work::Run { method, gas: *gas },
        })),
        _ => None,
    }
}

/// The run of a method, with the place of a trap.
fn trap_of<'a>(values: &[Value<'a>]) -> Option<Words<'a>>
    ensures { option_map command_in result ≡ trap_of (map value_in values.now) }
{
    match values {
        [
            Value::Text(config),
            Value::Text(file),
            Value::Text(method),
            Value::Number(gas),
        ] => Some(Words::Module(FileNames {
            config,
            file,
            work: Work::Trap { method, gas: *gas },
        })),
        _ => None,
    }
}

/// The call of a method, where its arguments are some.
fn to_call<'a>(
    config: &'a str,
    file: &'a str,
    method: &'a str,
    args: Option<Blob>,
    gas: u64,
    deposit: u128,
) -> Option<Words<'a>>
    ensures { option_map command_in result ≡ to_call config.now file.now method.now args gas deposit }
{
    match args {
        Some(args) => Some(Words::Call(CallNames {
            config,
            file,
            method,
            args,
            gas,
            deposit,
        })),
        None => None,
    }
}

/// The call of a method without tokens.
fn call_of<'a>(alloc: Global, values: &[Value<'a>]) -> Result<Option<Words<'a>>, AllocError>
    ensures { IfOk result (λ read. option_map command_in read ≡ call_of (map value_in values.now)) }
{
    match values {
        [
            Value::Text(config),
            Value::Text(file),
            Value::Text(method),
            Value::Text(args),
            Value::Number(gas),
        ] => {
            let args = args_of(alloc, args)?;
            Ok(to_call(config, file, method, args, *gas, 0))
        }
        _ => Ok(None),
    }
}

/// The call of a method with tokens, where these are a number.
fn to_pay<'a>(
    config: &'a str,
    file: &'a str,
    method: &'a str,
    args: Option<Blob>,
    gas: u64,
    deposit: Option<u128>,
) -> Option<Words<'a>>
    ensures { option_map command_in result ≡ to_pay config.now file.now method.now args gas deposit }
{
    match deposit {
        Some(deposit) => to_call(config, file, method, args, gas, deposit),
        None => None,
    }
}

/// The call of a method with tokens.
fn paid_of<'a>(alloc: Global, values: &[Value<'a>]) -> Result<Option<Words<'a>>, AllocError>
    ensures { IfOk result (λ read. option_map command_in read ≡ paid_of (map value_in values.now)) }
{
    match values {
        [
            Value::Text(config),
            Value::Text(file),
            Value::Text(method),
            Value::Text(args),
            Value::Number(gas),
            Value::Text(deposit),
        ] => {
            let args = args_of(alloc, args)?;
            Ok(to_pay(config, file, method, args, *gas, deposit_of(deposit)))
        }
        _ => Ok(None),
    }
}

/// A view of a module.
fn view_of<'a>(view: View, values: &[Value<'a>]) -> Option<Words<'a>>
    ensures { option_map command_in result ≡ view_of view (map value_in values.now) }
{
    match values {
        [Value::Text(file)] => Some(Words::Shown(view, file)),
        _ => None,
    }
}

/// The command that a form with its values is.
fn found_command<'a>(alloc: Global, found: &Found<'a>) -> Result<Option<Words<'a>>, AllocError>
    ensures { IfOk result (λ read. option_map command_in read ≡ found_command (found_in found.now)) }
{
    let values = found.values.as_slice();
    match found.verb {
        "check" => Ok(check_of(values)),
        "run" => Ok(run_of(values)),
        "trap" => Ok(trap_of(values)),
        "call" => call_of(alloc, values),
        "list" => Ok(view_of(View::Brief, values)),
        "text" => Ok(view_of(View::Whole, values)),
        "help" => Ok(Some(Words::Text(help_text()))),
        "version" => Ok(Some(Words::Text(version_text()))),
        _ => Ok(None),
    }
}

/// The call with tokens that a form with its values is.
fn paid_by<'a>(alloc: Global, found: &Found<'a>) -> Result<Option<Words<'a>>, AllocError>
    ensures { IfOk result (λ read. option_map command_in read ≡ paid_by (found_in found.now)) }
{
    paid_of(alloc, found.values.as_slice())
}

/// The call with tokens that the words are.
fn paid_command(alloc: Global, words: &[String]) -> Result<Option<Words<'_>>, AllocError>
    ensures { IfOk result (λ read. option_map command_in read ≡ paid_command (texts words.now)) }
{
    match read_words(alloc, "near_module", paid_forms(), words)? {
        Some(found) => paid_by(alloc, &found),
        None => Ok(None),
    }
}

/// The command that the words are: `check CONFIG FILE`, `run CONFIG FILE METHOD GAS`, `trap CONFIG FILE METHOD GAS`,
/// `call CONFIG FILE METHOD ARGS GAS`, or the same with DEPOSIT behind it, `list FILE`, `text FILE`, `help` or
/// `version`.
///
/// # Errors
///
/// Where memory runs out.
pub(crate) fn command_of(alloc: Global, words: &[String]) -> Result<Option<Words<'_>>, AllocError>
    ensures { IfOk result (λ read. option_map command_in read ≡ command (texts words.now)) }
{
    match read_words(alloc, "near_module", forms(), words)? {
        Some(found) => found_command(alloc, &found),
        None => paid_command(alloc, words),
    }
}
