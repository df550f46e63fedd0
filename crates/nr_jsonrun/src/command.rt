//! The words of the two commands.

ghost use Rattle.std.specs.Prelude.{◌≡◌, IfOk, map, option_map};
ghost use Rattle.nr_files.specs.Help.{jsonrun_forms};
ghost use Rattle.nr_jsonrun.specs.Command.{driven, names_by, run_names, whole};
ghost use Rattle.nr_words.specs.Words.{found_in, names_in, table_in, texts, value_in};

use nr_words::{FileNames, Form, Found, Place, Value, read_words};
use std::alloc::{AllocError, Global};

/// `replay CONFIG GENESIS.json BLOCKS.json` and `check CONFIG GENESIS.json BLOCKS.json SCHEDULE`.
const FORMS: &[Form] = &[
    Form {
        verb: "replay",
        places: &[
            Place::File("CONFIG"),
            Place::File("GENESIS.json"),
            Place::File("BLOCKS.json"),
        ],
    },
    Form {
        verb: "check",
        places: &[
            Place::File("CONFIG"),
            Place::File("GENESIS.json"),
            Place::File("BLOCKS.json"),
            Place::File("SCHEDULE"),
        ],
    },
];

fn jsonrun_forms() -> &'static [Form]
    ensures { table_in result.now ≡ jsonrun_forms }
{
    FORMS
}

/// The files of a chain that goes to its end.
fn whole<'a>(values: &[Value<'a>]) -> Option<FileNames<'a>>
    ensures { option_map names_in result ≡ whole (map value_in values.now) }
{
    match values {
        [
            Value::Text(config),
            Value::Text(genesis),
            Value::Text(blocks),
        ] => Some(FileNames {
            config,
            genesis,
            blocks,
            schedule: None,
        }),
        _ => None,
    }
}

/// The files of a chain that a schedule drives.
fn driven<'a>(values: &[Value<'a>]) -> Option<FileNames<'a>>
    ensures { option_map names_in result ≡ driven (map value_in values.now) }
{
    match values {
        [
            Value::Text(config),
            Value::Text(genesis),
            Value::Text(blocks),
            Value::Text(schedule),
        ] => Some(FileNames {
            config,
            genesis,
            blocks,
            schedule: Some(schedule),
        }),
        _ => None,
    }
}

fn names_by<'a>(found: &Found<'a>) -> Option<FileNames<'a>>
    ensures { option_map names_in result ≡ names_by (found_in found.now) }
{
    let values = found.values.as_slice();
    match found.verb {
        "replay" => whole(values),
        "check" => driven(values),
        _ => None,
    }
}

/// The files that the words name, where they are one of the two commands.
///
/// # Errors
///
/// Where memory runs out.
pub(crate) fn run_names(
    alloc: Global,
    words: &[String],
) -> Result<Option<FileNames<'_>>, AllocError>
    ensures { IfOk result (λ names. option_map names_in names ≡ run_names (texts words.now)) }
{
    match read_words(alloc, "near_files", jsonrun_forms(), words)? {
        Some(found) => Ok(names_by(&found)),
        None => Ok(None),
    }
}
