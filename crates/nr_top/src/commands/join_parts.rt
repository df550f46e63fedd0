//! `joinparts ROOT COUNT PREFIX`.

ghost use Rattle.std.specs.Prelude.{◌≡◌, true, IfOk, unwrap_or};
ghost use Rattle.nr_parts.specs.Joining.{first_refused, joined_or_fault};
ghost use Rattle.nr_shell.specs.Answers.{Follows, Judges};
ghost use Rattle.nr_shell.specs.Plans.{by_reading};
ghost use Rattle.nr_top.specs.Answers.{refuses};
ghost use Rattle.nr_top.specs.StateParts.{join_answer, join_parts_plan, join_status, part_status, root_line};
ghost use Rattle.nr_words.specs.Forms.{is_digest};

use crate::part_files::load_parts;
use crate::refused::part_stop;
use crate::root_word::root_in;
use crate::status::Status;
use nr_bytes::{Blob, List, Shelf};
use nr_columns::Entry;
use nr_ids::Hash32;
use nr_parts::{Part, PartFault, first_refused, join_parts};
use nr_shell::Stop;
use std::alloc::{AllocError, Global};

/// The line of a root whose parts were joined.
fn root_line(alloc: Global, word: &str, entries: &List<Entry>) -> Result<Blob, AllocError>
    ensures { IfOk result (λ text. text ≡ root_line word.now entries.now) }
{
    let count = entries.inner().len();
    let line = format!(in alloc; "root {word} entries {count}\n")?;
    Ok(Blob::of(Vec::from_slice(alloc, line.as_bytes())?))
}

/// The position of the first part that is refused, and 0 where none is.
fn refused_at(alloc: Global, root: &Hash32, parts: &List<Part>) -> Result<u64, AllocError>
    ensures { IfOk result (λ at. at ≡ unwrap_or (first_refused root.now 0 parts.now) 0) }
{
    let at = first_refused(alloc, root, parts)?;
    Ok(at.unwrap_or(0) as u64)
}

/// The position with which a fault of some parts is told: that of the first part that is refused, where it counts.
fn told_at(
    alloc: Global,
    root: &Hash32,
    parts: &List<Part>,
    fault: PartFault,
) -> Result<u64, AllocError>
    ensures { IfOk result (λ at. part_status at fault ≡ join_status root.now parts.now fault) }
{
    match fault {
        PartFault::Order { .. } => Ok(0),
        PartFault::Whole { .. } => Ok(0),
        _ => refused_at(alloc, root, parts),
    }
}

/// The entries of all parts, against a root.
fn joined(alloc: Global, root: &Hash32, parts: &List<Part>) -> Result<List<Entry>, Stop<Status>>
    ensures { Judges refuses (λ entries. entries) result
        (by_reading (join_status root.now parts.now) (joined_or_fault root.now parts.now)) }
{
    match join_parts(alloc, root, parts) {
        Ok(entries) => Ok(entries),
        Err(fault) => match told_at(alloc, root, parts, fault) {
            Ok(position) => Err(part_stop(position, fault)),
            Err(_) => Err(Stop::Memory),
        },
    }
}

/// What is said of all parts, against the root that 64 digits spell.
fn joined_text(alloc: Global, word: &str, parts: &List<Part>) -> Result<Blob, Stop<Status>>
    requires { is_digest word.now ≡ true }
    ensures { Judges refuses (λ text. text) result (join_answer word.now parts.now) }
{
    match joined(alloc, &root_in(word), parts) {
        Ok(entries) => match root_line(alloc, word, &entries) {
            Ok(text) => Ok(text),
            Err(_) => Err(Stop::Memory),
        },
        Err(stop) => Err(stop),
    }
}

/// What is said of all parts, in files that are named by a prefix and the position from 0.
#[inline(never)]
pub(crate) fn join_parts_text<S: Shelf>(
    alloc: Global,
    word: &str,
    count: u32,
    prefix: &str,
    shelf: &mut S,
) -> Result<Blob, Stop<Status>>
    requires { is_digest word.now ≡ true }
    ensures { Follows refuses (λ text. text) (S.held shelf.old) (S.held shelf.new)
        (S.asked shelf.old) (S.asked shelf.new) (S.faults shelf.old) (S.faults shelf.new)
        result (join_parts_plan word.now count prefix.now) }
{
    match load_parts(alloc, prefix, count, shelf) {
        Ok(parts) => joined_text(alloc, word, &parts),
        Err(stop) => Err(stop),
    }
}
