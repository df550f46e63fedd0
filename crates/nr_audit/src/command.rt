//! The words of the command line.

ghost use Rattle.std.specs.Prelude.{◌≡◌, IfOk, map, option_map};
ghost use Rattle.nr_words.specs.Words.{found_in, table_in, texts, value_in};
ghost use Rattle.nr_audit.specs.Command.{command, command_in, found_command, gather_of};
ghost use Rattle.nr_audit.specs.Help.{forms};

use crate::help::{help_text, version_text};
use nr_words::{FileNames, Form, Found, Place, Value, read_words};
use std::alloc::{AllocError, Global};

/// The words of a command.
#[derive(Clone, Copy, Debug)]
pub(crate) enum Words<'a> {
    /// `gather CONFIG GENESIS BLOCKS`
    Gather(FileNames<'a>),
    /// `help` or `version`, by the text that it writes
    Text(&'a str),
}

/// `gather CONFIG GENESIS BLOCKS`, `help` and `version`.
const FORMS: &[Form] = &[
    Form {
        verb: "gather",
        places: &[
            Place::File("CONFIG"),
            Place::File("GENESIS"),
            Place::File("BLOCKS"),
        ],
    },
    Form {
        verb: "help",
        places: &[],
    },
    Form {
        verb: "version",
        places: &[],
    },
];

fn forms() -> &'static [Form]
    ensures { table_in result.now ≡ forms }
{
    FORMS
}

/// The chunks of a chain.
fn gather_of<'a>(values: &[Value<'a>]) -> Option<Words<'a>>
    ensures { option_map command_in result ≡ gather_of (map value_in values.now) }
{
    match values {
        [
            Value::Text(config),
            Value::Text(genesis),
            Value::Text(blocks),
        ] => Some(Words::Gather(FileNames {
            config,
            genesis,
            blocks,
            schedule: None,
        })),
        _ => None,
    }
}

/// The command that a form with its values is.
fn found_command<'a>(found: &Found<'a>) -> Option<Words<'a>>
    ensures { option_map command_in result ≡ found_command (found_in found.now) }
{
    let values = found.values.as_slice();
    match found.verb {
        "gather" => gather_of(values),
        "help" => Some(Words::Text(help_text())),
        "version" => Some(Words::Text(version_text())),
        _ => None,
    }
}

/// The command that the words are: `gather CONFIG GENESIS BLOCKS`, `help` or `version`.
///
/// # Errors
///
/// Where memory runs out.
pub(crate) fn command_of(alloc: Global, words: &[String]) -> Result<Option<Words<'_>>, AllocError>
    ensures { IfOk result (λ read. option_map command_in read ≡ command (texts words.now)) }
{
    match read_words(alloc, "near_audit", forms(), words)? {
        Some(found) => Ok(found_command(&found)),
        None => Ok(None),
    }
}
