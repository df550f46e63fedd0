//! Checking a part against the root.

ghost use Rattle.std.specs.Prelude.{◌≡◌, IfOk};
ghost use Rattle.nr_bytes.specs.Answers.{Gives};
ghost use Rattle.nr_walk.specs.Texts.{memory_fault as walk_memory};
ghost use Rattle.nr_parts.specs.Agreeing.{IsPartOfEach};
ghost use Rattle.nr_parts.specs.Checking.{memory_fault, is_claimed, first_other, same_hash, is_zeros, claims_of};
ghost use Rattle.nr_parts.specs.Checking.{compared, is_numbered, checked};

use crate::fault::PartFault;
use crate::part::Part;
use crate::walking::{Claim, walked};
use nr_bytes::List;
use nr_columns::Entry;
use nr_ids::Hash32;
use nr_triedef::value_hash;
use nr_walk::{Texts, WalkFault, bytes_in, room_over};
use std::alloc::Global;

pub(crate) fn same_hash(one: &Hash32, other: &Hash32) -> bool
    ensures { result ≡ same_hash one.now other.now }
{
    one.0.as_slice() == other.0.as_slice()
}

fn is_zeros(root: &Hash32) -> bool
    ensures { result ≡ is_zeros root.now }
{
    let zeros = [0; 32];
    root.0.as_slice() == zeros.as_slice()
}

fn is_claimed(entry: &Entry, claim: &Claim) -> bool
    ensures { result ≡ is_claimed entry.now claim.now }
{
    entry.key.inner() == claim.key.inner()
        && entry.value.inner().len() == claim.length as usize
        && same_hash(&value_hash(entry.value.inner()), &claim.hash)
}

// The first index at which the entries aren't those claimed.
fn first_other(entries: &[Entry], claims: &[Claim]) -> Option<usize>
    ensures { result ≡ first_other 0 entries.now claims.now }
{
    let mut i = 0;
    while i < entries.len() && i < claims.len() {
        if !is_claimed(&entries[i], &claims[i]) {
            return Some(i);
        }
        i += 1;
    }
    if entries.len() == claims.len() {
        None
    } else {
        Some(i)
    }
}

// How many bytes the texts and the entries have, with their two counts for each entry.
fn bytes_of(part: &Part) -> u64 {
    let mut bytes = bytes_in(&part.texts);
    for entry in part.entries.inner() {
        let key = entry.key.inner().len() as u64;
        let value = entry.value.inner().len() as u64;
        bytes = bytes
            .saturating_add(key)
            .saturating_add(value)
            .saturating_add(8);
    }
    bytes
}

#[tactic(auto, unfolding(crate::specs::Checking::claims_of))]
fn claims_of(alloc: Global, part: &Part) -> Result<List<Claim>, WalkFault>
    requires { 0 < part.now.count }
    ensures { Gives walk_memory result (claims_of part.now) }
{
    if is_zeros(&part.root) {
        return Ok(List::of(Vec::new(alloc)));
    }
    let texts = Texts::new(alloc, &part.texts)?.with_room(room_over(bytes_of(part)));
    walked(alloc, &texts, &part.root, part.count, part.number)
}

ghost use Rattle.std.specs.Prelude.{◌<◌, true};

fn compared(alloc: Global, part: &Part) -> Result<(), PartFault>
    requires { 0 < part.now.count }
    ensures { Gives memory_fault result (compared part.now) }
{
    let claims = claims_of(alloc, part)?;
    match first_other(part.entries.inner(), claims.inner()) {
        None => Ok(()),
        Some(index) => Err(PartFault::Entries {
            index: index as u64,
        }),
    }
}

fn is_numbered(count: u32, number: u32) -> bool
    ensures value { result ≡ is_numbered count number }
    ensures some { result ≡ true → 0 < count }
{
    1 <= count && count <= 10_000 && number < count
}

#[tactic(auto, unfolding(crate::specs::Checking::checked))]
fn checked(alloc: Global, root: &Hash32, part: &Part) -> Result<(), PartFault>
    ensures { Gives memory_fault result (checked root.now part.now) }
{
    if !is_numbered(part.count, part.number) {
        return Err(PartFault::Numbers {
            count: part.count,
            number: part.number,
        });
    }
    if !same_hash(&part.root, root) {
        return Err(PartFault::Root { found: part.root });
    }
    compared(alloc, part)
}

/// Checks a part by its own texts, against the root that is given.
///
/// # Errors
///
/// The first fault: `Numbers`, `Root`, the first fault of the walk over the texts (`Missing`,
/// `BadText` or `TooMany`), or `Entries`; and `Memory`, where memory is wanting or the walk takes more
/// than its room.
pub fn check_part(alloc: Global, root: &Hash32, part: &Part) -> Result<(), PartFault>
    ensures value { Gives memory_fault result (checked root.now part.now) }
    // The entries are those of the part's number in every map that a store can hold, has the root
    // and agrees with the part's texts and values.
    ensures always { IfOk result (λ _. IsPartOfEach root.now part.now) }
{
    checked(alloc, root, part)
}
