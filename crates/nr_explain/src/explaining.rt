//! A sentence for a line that a program writes.

ghost use Rattle.std.specs.Prelude.{◌≡◌, ◌++◌, ◌∷◌, [], map, IfOk, string_bytes};
ghost use Rattle.nr_explain.specs.Programs.{behind, explained, line_told, line_words, name_of, spaced, told_by};
ghost use Rattle.nr_explain.specs.Programs.{told_of};

use crate::program::{Program, form_by, program_of};
use crate::sentences::sentence_by;
use nr_bytes::Blob;
use std::alloc::{AllocError, Global};

/// The words with a space between each two.
fn spaced(alloc: Global, words: &[String]) -> Result<Vec<u8>, AllocError>
    ensures { IfOk result (λ line. line.items ≡ spaced (map (λ w. string_bytes w) words.now)) }
{
    let mut line = Vec::new(alloc);
    match words {
        [] => Ok(line),
        [first, others @ ..] => {
            line.extend_from_slice(first.as_bytes())?;
            for word in others {
                line.push(b' ')?;
                line.extend_from_slice(word.as_bytes())?;
            }
            Ok(line)
        }
    }
}

/// The text with a line feed behind it.
fn with_feed(text: Blob) -> Result<Blob, AllocError>
    ensures { IfOk result (λ line. line ≡ text ++ 10 ∷ []) }
{
    let mut line = text.into_inner();
    line.push(b'\n')?;
    Ok(Blob::of(line))
}

/// The first word, or an empty one where there is none.
fn name_of(words: &[String]) -> &str
    ensures { result.now ≡ name_of (map (λ w. string_bytes w) words.now) }
{
    match words {
        [name, ..] => name.as_str(),
        [] => "",
    }
}

/// The words behind the first one.
fn behind(words: &[String]) -> &[String]
    ensures { map (λ w. string_bytes w) result.now ≡ behind (map (λ w. string_bytes w) words.now) }
{
    match words {
        [_, rest @ ..] => rest,
        [] => words,
    }
}

/// The words of the line itself.
#[tactic(auto, unfolding(crate::specs::Programs::line_words))]
fn line_words(program: Program, words: &[String]) -> &[String]
    ensures { map (λ w. string_bytes w) result.now ≡ line_words program (map (λ w. string_bytes w) words.now) }
{
    match program {
        Program::Any => words,
        Program::Serial => behind(words),
        Program::Replay => behind(words),
        Program::Audit => behind(words),
        Program::Module => behind(words),
        Program::Files => behind(words),
    }
}

/// The sentence of a line of a program.
fn line_told(alloc: Global, program: Program, line: &[u8]) -> Result<Option<Blob>, AllocError>
    ensures { IfOk result (λ told. told ≡ line_told program line.now) }
{
    sentence_by(alloc, form_by(program, line), line)
}

/// The sentence of the words of a line of a program.
fn told_by(alloc: Global, program: Program, words: &[String]) -> Result<Option<Blob>, AllocError>
    ensures { IfOk result (λ told. told ≡ told_by program (map (λ w. string_bytes w) words.now)) }
{
    let line = spaced(alloc, line_words(program, words))?;
    line_told(alloc, program, &line)
}

/// The sentence of `explain`, without the line feed; `None` where no such line has these words.
///
/// # Errors
///
/// Where memory ran out.
pub fn told_of(alloc: Global, words: &[String]) -> Result<Option<Blob>, AllocError>
    ensures { IfOk result (λ told. told ≡ told_of (map (λ w. string_bytes w) words.now)) }
{
    told_by(alloc, program_of(name_of(words)), words)
}

/// One sentence for a whole line that a program writes, with a line feed: a status and what it tells of it,
/// a line of a report, of a schedule or of what another command of a chain writes, or what `near_module
/// check`, `run`, `trap`, `call` and `list` say. The words are those of the line, behind the name of the program
/// (`near_serial`, `near_replay`, `near_audit`, `near_module` or `near_files`) or alone; alone, `ok` is a step of a
/// schedule. `None` where no such line has these words.
///
/// # Errors
///
/// Where memory ran out.
pub fn explain(alloc: Global, words: &[String]) -> Result<Option<Blob>, AllocError>
    ensures { IfOk result (λ told. told ≡ explained (map (λ w. string_bytes w) words.now)) }
{
    match told_of(alloc, words)? {
        Some(sentence) => Ok(Some(with_feed(sentence)?)),
        None => Ok(None),
    }
}
