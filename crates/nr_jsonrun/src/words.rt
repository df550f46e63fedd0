//! Refusals in words.

ghost use Rattle.std.specs.Prelude.{◌≡◌, ◌∷◌, [], IfOk, codes, map, string_bytes};
ghost use Rattle.nr_explain.specs.Programs.{told_of};
ghost use Rattle.nr_top.specs.Exit.{status_line};
ghost use Rattle.nr_jsonrun.specs.Words.{named, of_file, of_run, sentence_of};

use nr_bytes::{Blob, Text};
use nr_explain::told_of;
use nr_files::Status;
use nr_top::Status as RunStatus;
use std::alloc::{AllocError, Global};
use std::fmt::Write;

/// A refusal in these words, with the file's name before them.
fn named(alloc: Global, file: &str, words: &str) -> Result<Status, AllocError>
    ensures { IfOk result (λ told. told ≡ named file.now words.now) }
{
    let mut text = String::new(alloc);
    write!(text, "{file}: {words}")?;
    Ok(Status::Faulty {
        line: Text::of(text),
    })
}

/// The refusal of a file, with the file's name before its words.
///
/// # Errors
///
/// Where memory runs out.
pub(crate) fn of_file(alloc: Global, file: &str, status: Status) -> Result<Status, AllocError>
    ensures { IfOk result (λ told. told ≡ of_file file.now status) }
{
    match status {
        Status::TooLong => named(alloc, file, "the file is longer than 268435456 bytes"),
        Status::Faulty { line } => named(alloc, file, line.inner()),
        Status::Done => Ok(Status::Done),
        Status::Usage => Ok(Status::Usage),
        Status::NoSentence => Ok(Status::NoSentence),
        Status::Config { kind, entry } => Ok(Status::Config { kind, entry }),
        Status::ReadFault { name } => Ok(Status::ReadFault { name }),
        Status::WriteFault => Ok(Status::WriteFault),
        Status::NoMemory => Ok(Status::NoMemory),
    }
}

/// The words of a line by which `near_serial` tells how it ended.
fn line_words(alloc: Global, line: &str) -> Result<Vec<String>, AllocError>
    ensures { IfOk result (λ words. map (λ w. string_bytes w) words.items ≡ codes "near_serial" ∷ line.now ∷ []) }
{
    let mut words = Vec::new(alloc);
    words.push(String::from_str(alloc, "near_serial")?)?;
    words.push(String::from_str(alloc, line)?)?;
    Ok(words)
}

/// The text of a sentence, which is ASCII.
fn text_of(sentence: Blob) -> Result<Text, AllocError>
    ensures { IfOk result (λ text. text ≡ sentence) }
{
    match String::from_utf8(sentence.into_inner()) {
        Ok(text) => Ok(Text::of(text)),
        Err(_) => Err(AllocError),
    }
}

/// The sentence for a line by which `near_serial` tells how it ended, or the line where there is none.
fn sentence_of(alloc: Global, line: &str) -> Result<Text, AllocError>
    ensures { IfOk result (λ text. text ≡ sentence_of line.now) }
{
    let words = line_words(alloc, line)?;
    match told_of(alloc, &words)? {
        Some(sentence) => text_of(sentence),
        None => Ok(Text::of(String::from_str(alloc, line)?)),
    }
}

/// The refusal of a run.
///
/// # Errors
///
/// Where memory runs out.
pub(crate) fn of_run(alloc: Global, status: &RunStatus) -> Result<Status, AllocError>
    ensures { IfOk result (λ told. told ≡ of_run status.now) }
{
    let status_line = format!(in alloc; "{status}")?;
    let line = sentence_of(alloc, status_line.as_str())?;
    Ok(Status::Faulty { line })
}
