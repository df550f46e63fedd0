//! The words of the command line.

ghost use Rattle.std.specs.Prelude.{◌≡◌, IfOk, map};
ghost use Rattle.nr_words.specs.Words.{found_in, table_in, texts, value_in};
ghost use Rattle.nr_files.specs.Command.{alone, asked_in, behind, by_form, helped, made_of, meant, of_help};
ghost use Rattle.nr_files.specs.Command.{of_sentence, of_words, show_meant, shown, shown_of, told, verb_of};
ghost use Rattle.nr_files.specs.Command.{with_config, without_config};
ghost use Rattle.nr_files.specs.Help.{help_of, made_forms, shown_forms};
ghost use Rattle.nr_words.specs.Forms.{read};

use crate::help::{help_of, help_text, version_text};
use nr_bytes::Blob;
use nr_explain::explain;
use nr_words::{Form, Found, Place, Value, read_words};
use std::alloc::{AllocError, Global};

/// What is done with a file.
#[derive(Clone, Copy, Debug)]
pub enum Work {
    /// The blocks that a JSON text describes are written as a file.
    MakeBlocks,
    /// The genesis that a JSON text describes is written as a file.
    MakeGenesis,
    /// The bytes of a file are written as a JSON text of hexadecimal digits.
    MakeHex,
    /// The blocks of a file are written as JSON.
    ShowBlocks,
    /// The genesis of a file is written as JSON.
    ShowGenesis,
    /// The report of a file is written as JSON.
    ShowReport,
    /// The part of a state in a file is written as JSON.
    ShowPart,
    /// The proof in a file is written as JSON.
    ShowProof,
    /// The gathered chunk of a file is written as JSON.
    ShowGathered,
}

/// What is done, whether a JSON text of it has no spaces between its parts, under which configuration (`free`, or the
/// name of a file), and with which file.
#[derive(Clone, Copy, Debug)]
pub struct Request<'a> {
    /// What is done.
    pub work: Work,
    /// Whether a JSON text has no spaces.
    pub compact: bool,
    /// The configuration.
    pub config: &'a str,
    /// The file.
    pub file: &'a str,
}

/// What the words ask for.
#[derive(Debug, Drop)]
pub(crate) enum Asked<'a> {
    /// Nothing that there is.
    Nothing,
    /// A sentence that there isn't.
    Unknown,
    /// A file is made or shown.
    File(Request<'a>),
    /// A text is written.
    Written(Blob),
}

/// The commands that make a file or a part of one: `genesis CONFIG JSON`, `blocks JSON` and `hex FILE`.
const MADE: &[Form] = &[
    Form {
        verb: "genesis",
        places: &[Place::File("CONFIG"), Place::File("JSON")],
    },
    Form {
        verb: "blocks",
        places: &[Place::File("JSON")],
    },
    Form {
        verb: "hex",
        places: &[Place::File("FILE")],
    },
];

/// What may stand behind `show`: `genesis CONFIG FILE`, or another word and FILE.
const SHOWN: &[Form] = &[
    Form {
        verb: "genesis",
        places: &[Place::File("CONFIG"), Place::File("FILE")],
    },
    Form {
        verb: "blocks",
        places: &[Place::File("FILE")],
    },
    Form {
        verb: "report",
        places: &[Place::File("FILE")],
    },
    Form {
        verb: "part",
        places: &[Place::File("FILE")],
    },
    Form {
        verb: "proof",
        places: &[Place::File("FILE")],
    },
    Form {
        verb: "gathered",
        places: &[Place::File("FILE")],
    },
];

fn made_forms() -> &'static [Form]
    ensures { table_in result.now ≡ made_forms }
{
    MADE
}

fn shown_forms() -> &'static [Form]
    ensures { table_in result.now ≡ shown_forms }
{
    SHOWN
}

fn with_config<'a>(compact: bool, work: Work, values: &[Value<'a>]) -> Asked<'a>
    ensures { asked_in result ≡ with_config compact work (map value_in values.now) }
{
    match values {
        [Value::Text(config), Value::Text(file)] => Asked::File(Request {
            work,
            compact,
            config,
            file,
        }),
        _ => Asked::Nothing,
    }
}

fn without_config<'a>(compact: bool, work: Work, values: &[Value<'a>]) -> Asked<'a>
    ensures { asked_in result ≡ without_config compact work (map value_in values.now) }
{
    match values {
        [Value::Text(file)] => Asked::File(Request {
            work,
            compact,
            config: "free",
            file,
        }),
        _ => Asked::Nothing,
    }
}

fn made_of<'a>(found: &Found<'a>) -> Asked<'a>
    ensures { asked_in result ≡ made_of (found_in found.now) }
{
    let values = found.values.as_slice();
    match found.verb {
        "genesis" => with_config(false, Work::MakeGenesis, values),
        "blocks" => without_config(false, Work::MakeBlocks, values),
        "hex" => without_config(false, Work::MakeHex, values),
        _ => Asked::Nothing,
    }
}

fn shown_of<'a>(compact: bool, found: &Found<'a>) -> Asked<'a>
    ensures { asked_in result ≡ shown_of compact (found_in found.now) }
{
    let values = found.values.as_slice();
    match found.verb {
        "genesis" => with_config(compact, Work::ShowGenesis, values),
        "blocks" => without_config(compact, Work::ShowBlocks, values),
        "report" => without_config(compact, Work::ShowReport, values),
        "part" => without_config(compact, Work::ShowPart, values),
        "proof" => without_config(compact, Work::ShowProof, values),
        "gathered" => without_config(compact, Work::ShowGathered, values),
        _ => Asked::Nothing,
    }
}

/// What words that make a file ask for.
fn made(alloc: Global, words: &[String]) -> Result<Asked<'_>, AllocError>
    ensures { IfOk result (λ asked. asked_in asked ≡ by_form made_of (read made_forms (texts words.now))) }
{
    match read_words(alloc, "near_files", made_forms(), words)? {
        Some(found) => Ok(made_of(&found)),
        None => Ok(Asked::Nothing),
    }
}

/// What the words of a file to be shown ask for.
fn shown(alloc: Global, compact: bool, words: &[String]) -> Result<Asked<'_>, AllocError>
    ensures { IfOk result (λ asked. asked_in asked ≡ shown compact (texts words.now)) }
{
    match read_words(alloc, "near_files", shown_forms(), words)? {
        Some(found) => Ok(shown_of(compact, &found)),
        None => Ok(Asked::Nothing),
    }
}

/// What the words behind `show` ask for.
fn show_meant(alloc: Global, words: &[String]) -> Result<Asked<'_>, AllocError>
    ensures { IfOk result (λ asked. asked_in asked ≡ show_meant (texts words.now)) }
{
    match verb_of(words) {
        "--compact" => shown(alloc, true, behind(words)),
        _ => shown(alloc, false, words),
    }
}

/// A text and a line feed.
fn told<'a>(alloc: Global, text: &str) -> Result<Asked<'a>, AllocError>
    ensures { IfOk result (λ asked. asked_in asked ≡ told text.now) }
{
    let mut bytes = Vec::from_slice(alloc, text.as_bytes())?;
    bytes.push(b'\n')?;
    Ok(Asked::Written(Blob::of(bytes)))
}

/// What a word asks for that stands alone: its text.
fn alone<'a>(alloc: Global, text: &str, words: &[String]) -> Result<Asked<'a>, AllocError>
    ensures { IfOk result (λ asked. asked_in asked ≡ alone text.now (texts words.now)) }
{
    match words {
        [] => told(alloc, text),
        [_, ..] => Ok(Asked::Nothing),
    }
}

/// What is said of one command.
fn of_help<'a>(alloc: Global, command: &str) -> Result<Asked<'a>, AllocError>
    ensures { IfOk result (λ asked. asked_in asked ≡ of_help (help_of command.now)) }
{
    match help_of(command) {
        Some(text) => told(alloc, text),
        None => Ok(Asked::Nothing),
    }
}

/// What the words behind `help` ask for.
fn helped<'a>(alloc: Global, words: &[String]) -> Result<Asked<'a>, AllocError>
    ensures { IfOk result (λ asked. asked_in asked ≡ helped (texts words.now)) }
{
    match words {
        [] => told(alloc, help_text()),
        [command] => of_help(alloc, command.as_str()),
        [_, _, ..] => Ok(Asked::Nothing),
    }
}

fn of_sentence<'a>(sentence: Option<Blob>) -> Asked<'a>
    ensures { asked_in result ≡ of_sentence sentence }
{
    match sentence {
        Some(text) => Asked::Written(text),
        None => Asked::Unknown,
    }
}

/// What the words behind `explain` ask for.
fn of_words<'a>(alloc: Global, words: &[String]) -> Result<Asked<'a>, AllocError>
    ensures { IfOk result (λ asked. asked_in asked ≡ of_words (texts words.now)) }
{
    match words {
        [] => Ok(Asked::Nothing),
        [_, ..] => {
            let sentence = explain(alloc, words)?;
            Ok(of_sentence(sentence))
        }
    }
}

/// The first word, or an empty one where there is none.
fn verb_of(words: &[String]) -> &str
    ensures { result.now ≡ verb_of (texts words.now) }
{
    match words {
        [verb, ..] => verb.as_str(),
        [] => "",
    }
}

/// The words behind the first one.
fn behind(words: &[String]) -> &[String]
    ensures { texts result.now ≡ behind (texts words.now) }
{
    match words {
        [_, rest @ ..] => rest,
        [] => words,
    }
}

/// What the words ask for.
///
/// # Errors
///
/// Where memory runs out.
#[tactic(auto, unfolding(crate::specs::Command::meant))]
pub(crate) fn asked_of(alloc: Global, words: &[String]) -> Result<Asked<'_>, AllocError>
    ensures { IfOk result (λ asked. asked_in asked ≡ meant (texts words.now)) }
{
    match verb_of(words) {
        "explain" => of_words(alloc, behind(words)),
        "help" => helped(alloc, behind(words)),
        "version" => alone(alloc, version_text(), behind(words)),
        "show" => show_meant(alloc, behind(words)),
        _ => made(alloc, words),
    }
}
