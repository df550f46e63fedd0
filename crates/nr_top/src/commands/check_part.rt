//! `checkpart ROOT FILE`.

ghost use Rattle.std.specs.Prelude.{◌≡◌, true, IfOk};
ghost use Rattle.nr_shell.specs.Answers.{Follows, Judges};
ghost use Rattle.nr_top.specs.Answers.{refuses};
ghost use Rattle.nr_top.specs.StateParts.{check_answer, check_part_plan, part_line};
ghost use Rattle.nr_words.specs.Forms.{is_digest};

use crate::part_files::load_part;
use crate::refused::part_stop;
use crate::root_word::root_in;
use crate::status::Status;
use nr_bytes::{Blob, Shelf};
use nr_ids::Hash32;
use nr_parts::{Part, check_part};
use nr_shell::Stop;
use std::alloc::{AllocError, Global};

/// The line of a part that is accepted.
fn part_line(alloc: Global, part: &Part) -> Result<Blob, AllocError>
    ensures { IfOk result (λ text. text ≡ part_line part.now) }
{
    let number = part.number;
    let count = part.count;
    let entries = part.entries.inner().len();
    let line = format!(in alloc; "part {number} {count} entries {entries}\n")?;
    Ok(Blob::of(Vec::from_slice(alloc, line.as_bytes())?))
}

/// The same, if it is accepted against a root.
fn accepted(alloc: Global, root: &Hash32, part: &Part) -> Result<Blob, Stop<Status>>
    ensures { Judges refuses (λ text. text) result (check_answer root.now part.now) }
{
    match check_part(alloc, root, part) {
        Ok(()) => match part_line(alloc, part) {
            Ok(text) => Ok(text),
            Err(_) => Err(Stop::Memory),
        },
        Err(fault) => Err(part_stop(0, fault)),
    }
}

/// What is said of the part of a file, against the root that 64 digits spell.
#[inline(never)]
pub(crate) fn check_part_text<S: Shelf>(
    alloc: Global,
    word: &str,
    file: &str,
    shelf: &mut S,
) -> Result<Blob, Stop<Status>>
    requires { is_digest word.now ≡ true }
    ensures { Follows refuses (λ text. text) (S.held shelf.old) (S.held shelf.new)
        (S.asked shelf.old) (S.asked shelf.new) (S.faults shelf.old) (S.faults shelf.new)
        result (check_part_plan word.now file.now) }
{
    let root = root_in(word);
    match load_part(alloc, 0, file, shelf) {
        Ok(part) => accepted(alloc, &root, &part),
        Err(stop) => Err(stop),
    }
}
