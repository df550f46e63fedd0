//! Parts of a state in files.

ghost use Rattle.std.specs.Prelude.{◌≡◌, ◌++◌, ◌∷◌, [], IfOk, OnOk, string_bytes};
ghost use Rattle.nr_shell.specs.Answers.{Follows, Judges};
ghost use Rattle.nr_shell.specs.Plans.{Answer, and_then};
ghost use Rattle.nr_top.specs.Answers.{refuses};
ghost use Rattle.nr_top.specs.StateParts.{by_part_bytes, part_file_plan, part_name, part_names, parts_plan};

use crate::refused::part_stop;
use crate::status::Status;
use nr_bytes::{List, Shelf};
use nr_parts::{Part, read_part};
use nr_shell::{Stop, load};
use std::alloc::{AllocError, Global};

/// The most bytes of a part's file, 256 MiB.
const PART_LIMIT: usize = 268_435_456;

/// The part that some bytes spell, which stands at a position among others.
fn part_in(alloc: Global, position: u32, bytes: &[u8]) -> Result<Part, Stop<Status>>
    ensures { Judges refuses (λ part. part) result (by_part_bytes position bytes.now) }
{
    match read_part(alloc, bytes) {
        Ok(part) => Ok(part),
        Err(fault) => Err(part_stop(u64::from(position), fault)),
    }
}

/// The part of a file, which stands at a position among others.
pub(crate) fn load_part<S: Shelf>(
    alloc: Global,
    position: u32,
    name: &str,
    shelf: &mut S,
) -> Result<Part, Stop<Status>>
    ensures { Follows refuses (λ part. part) (S.held shelf.old) (S.held shelf.new)
        (S.asked shelf.old) (S.asked shelf.new) (S.faults shelf.old) (S.faults shelf.new)
        result (part_file_plan position name.now) }
{
    let too_long = Status::Parts {
        kind: 0,
        a: u64::from(position),
    };
    match load(alloc, name, PART_LIMIT, too_long, shelf) {
        Ok(bytes) => part_in(alloc, position, &bytes),
        Err(stop) => Err(stop),
    }
}

/// The name of the file of the part at a position.
fn part_name(alloc: Global, prefix: &str, position: u32) -> Result<String, AllocError>
    ensures { IfOk result (λ name. string_bytes name ≡ part_name prefix.now position) }
{
    format!(in alloc; "{prefix}{position}")
}

/// The part of the file that is named by a prefix and a position.
fn load_named<S: Shelf>(
    alloc: Global,
    prefix: &str,
    position: u32,
    shelf: &mut S,
) -> Result<Part, Stop<Status>>
    ensures { Follows refuses (λ part. part) (S.held shelf.old) (S.held shelf.new)
        (S.asked shelf.old) (S.asked shelf.new) (S.faults shelf.old) (S.faults shelf.new)
        result (part_file_plan position (part_name prefix.now position)) }
{
    match part_name(alloc, prefix, position) {
        Ok(name) => load_part(alloc, position, &name, shelf),
        Err(_) => Err(Stop::Memory),
    }
}

fn push_part(parts: &mut Vec<Part>, part: Part) -> Result<(), AllocError>
    ensures { OnOk result (parts.new.items ≡ parts.old.items ++ part ∷ []) }
{
    parts.push(part)?;
    Ok(())
}

/// Loads the part at a position, behind other parts.
fn add_part<S: Shelf>(
    alloc: Global,
    prefix: &str,
    position: u32,
    parts: &mut Vec<Part>,
    shelf: &mut S,
) -> Result<(), Stop<Status>>
    ensures { Follows refuses (λ _. parts.new.items) (S.held shelf.old) (S.held shelf.new)
        (S.asked shelf.old) (S.asked shelf.new) (S.faults shelf.old) (S.faults shelf.new)
        result (and_then (part_file_plan position (part_name prefix.now position))
        (λ part. Answer (parts.old.items ++ part ∷ []))) }
{
    match load_named(alloc, prefix, position, shelf) {
        Ok(part) => match push_part(parts, part) {
            Ok(()) => Ok(()),
            Err(_) => Err(Stop::Memory),
        },
        Err(stop) => Err(stop),
    }
}

/// So many parts, of files that are named by a prefix and the position from 0. Each is read before the next one is
/// loaded.
pub(crate) fn load_parts<S: Shelf>(
    alloc: Global,
    prefix: &str,
    count: u32,
    shelf: &mut S,
) -> Result<List<Part>, Stop<Status>>
    ensures { Follows refuses (λ parts. parts) (S.held shelf.old) (S.held shelf.new)
        (S.asked shelf.old) (S.asked shelf.new) (S.faults shelf.old) (S.faults shelf.new)
        result (parts_plan 0 (part_names prefix.now count)) }
{
    let mut parts = Vec::new(alloc);
    for position in 0..count {
        match add_part(alloc, prefix, position, &mut parts, shelf) {
            Ok(()) => {}
            Err(stop) => return Err(stop),
        }
    }
    Ok(List::of(parts))
}
