//! What the entries of a column count.

ghost use Rattle.std.specs.Prelude.{◌≡◌, ◌+◌, ℕ, List, Some, cond, IfOk, OnOk};
ghost use Rattle.std.specs.BTreeMap as tree;
ghost use Rattle.std.specs.Map.{count_at};
ghost use Rattle.std.specs.Option.{option_map};
ghost use Rattle.std.specs.Str.{bytes_eq};
ghost use Rattle.nr_columns.specs.Orders.{bytes_cmp};
ghost use Rattle.nr_entries.specs.Counting.{count_in, entry_bytes, is_in, owned_bytes, owned_part};

use crate::split::split_at_first;
use nr_bytes::Blob;
use nr_columns::Entry;
use std::alloc::{AllocError, Global};
use std::collections::BTreeMap;

/// Whether a key is one of the column, of two bytes or more.
fn is_in(column: u8, key: &[u8]) -> bool
    ensures { result ≡ is_in column key.now }
{
    match key {
        [first, _, ..] => *first == column,
        _ => false,
    }
}

/// How many entries a column has, but for one whose key is the column's byte alone.
pub fn count_in(column: u8, entries: &[Entry]) -> usize
    ensures { result ≡ count_in column entries.now }
{
    entries
        .iter()
        .filter(|entry| is_in(column, entry.key.inner()))
        .count()
}

/// The owner of an access key or a datum, and the key behind it.
fn owned_part(key: &[u8]) -> Option<(&[u8], &[u8])>
    ensures { option_map (λ parts. (parts.0.now, parts.1.now)) result ≡ owned_part key.now }
{
    match key {
        [2, rest @ ..] => split_at_first(rest, 2),
        [9, rest @ ..] => split_at_first(rest, b','),
        _ => None,
    }
}

/// The sum, where it is a number of 128 bits; it is, of bytes that are held.
fn sum_of(before: u128, bytes: u128) -> Result<u128, AllocError>
    ensures { IfOk result (λ sum. sum ≡ before + bytes) }
{
    before.checked_add(bytes).ok_or(AllocError)
}

/// The bytes of an owner's name.
fn name_of(alloc: Global, owner: &[u8]) -> Result<Blob, AllocError>
    ensures { IfOk result (λ name. name ≡ owner.now) }
{
    let bytes = Vec::from_slice(alloc, owner)?;
    Ok(Blob::of(bytes))
}

/// Adds to what an owner is counted as.
fn add_bytes(
    alloc: Global,
    counts: &mut BTreeMap<Blob, u128>,
    owner: &[u8],
    bytes: u128,
) -> Result<(), AllocError>
    ensures { OnOk result ((q : List ℕ) → count_at (tree.get bytes_cmp counts.new) q
        ≡ cond (bytes_eq owner.now q) (count_at (tree.get bytes_cmp counts.old) q + bytes)
        (count_at (tree.get bytes_cmp counts.old) q)) }
{
    let name = name_of(alloc, owner)?;
    let before = counts.get(&name).copied().unwrap_or(0);
    let after = sum_of(before, bytes)?;
    counts.insert(name, after)?;
    Ok(())
}

/// Adds what an entry counts to what its owner is counted as.
fn add_entry(
    alloc: Global,
    counts: &mut BTreeMap<Blob, u128>,
    extra: u64,
    entry: &Entry,
) -> Result<(), AllocError>
    ensures { OnOk result ((q : List ℕ) → count_at (tree.get bytes_cmp counts.new) q
        ≡ entry_bytes extra q entry.now + count_at (tree.get bytes_cmp counts.old) q) }
{
    let Some((owner, key)) = owned_part(entry.key.inner()) else {
        return Ok(());
    };
    let bytes = key.len() as u128 + entry.value.inner().len() as u128 + u128::from(extra);
    add_bytes(alloc, counts, owner, bytes)
}

/// The bytes that each owner's access keys and data are counted as, with so many more for each
/// record.
///
/// # Errors
///
/// Where memory ran out.
pub fn owned_bytes(
    alloc: Global,
    extra: u64,
    entries: &[Entry],
) -> Result<BTreeMap<Blob, u128>, AllocError>
    ensures { IfOk result (λ counts. (q : List ℕ) → count_at (tree.get bytes_cmp counts) q
        ≡ owned_bytes extra entries.now q) }
{
    let mut counts = BTreeMap::new(alloc);
    let mut left = entries.len();
    while left > 0 {
        left -= 1;
        add_entry(alloc, &mut counts, extra, &entries[left])?;
    }
    Ok(counts)
}
