//! States, and their parts.

ghost use Rattle.std.specs.Prelude.{◌≡◌};
ghost use Rattle.std.specs.Ordering.{nat_cmp};
ghost use Rattle.std.specs.Cmp.Lexicographic.{slice_cmp};
ghost use Rattle.std.specs.FinMap.Entries.{below_all, is_sorted};
ghost use Rattle.nr_columns.specs.Entries.{pairs_of};

use nr_bytes::{Blob, List};
use nr_columns::Entry;
use nr_parts::{Part, cut_part, write_part};
use std::alloc::{AllocError, Global};

/// Puts an entry behind the others.
pub(crate) fn push_entry(
    alloc: Global,
    entries: &mut Vec<Entry>,
    key: &[u8],
    value: &[u8],
) -> Result<(), AllocError> {
    let key = Blob::of(Vec::from_slice(alloc, key)?);
    let value = Blob::of(Vec::from_slice(alloc, value)?);
    entries.push(Entry { key, value })?;
    Ok(())
}

/// Three entries with one value.
pub(crate) fn three(alloc: Global) -> Result<List<Entry>, AllocError> {
    let mut entries = Vec::new(alloc);
    push_entry(alloc, &mut entries, b"a", b"abc")?;
    push_entry(alloc, &mut entries, b"ab", b"abc")?;
    push_entry(alloc, &mut entries, b"b1", b"abc")?;
    Ok(List::of(entries))
}

/// Forty entries. The key of each fourth one is the front of the keys of the three behind it.
pub(crate) fn forty(alloc: Global) -> Result<List<Entry>, AllocError> {
    let mut entries = Vec::new(alloc);
    for i in 0..40u8 {
        let bytes = [i; 37];
        let value = &bytes[..i as usize * 5 % 37];
        if i % 4 == 0 {
            push_entry(alloc, &mut entries, &[i / 4], value)?;
        } else {
            push_entry(alloc, &mut entries, &[i / 4, 16 * (i % 4), i], value)?;
        }
    }
    Ok(List::of(entries))
}

// Whether the key stands before all of these.
fn is_below(key: &[u8], entries: &[Entry]) -> bool
    ensures { result ≡ below_all (slice_cmp nat_cmp) key.now (pairs_of entries.now) }
{
    match entries {
        [] => true,
        [entry, others @ ..] => key.cmp(entry.key.inner()).is_lt() && is_below(key, others),
    }
}

/// Whether the keys rise.
pub(crate) fn is_sorted(entries: &[Entry]) -> bool
    ensures { result ≡ is_sorted (slice_cmp nat_cmp) (pairs_of entries.now) }
{
    match entries {
        [] => true,
        [entry, others @ ..] => is_below(entry.key.inner(), others) && is_sorted(others),
    }
}

/// A part of these entries; none where their keys don't rise or there is no such part.
pub(crate) fn part_of(
    alloc: Global,
    entries: &List<Entry>,
    count: u32,
    number: u32,
) -> Result<Option<Part>, AllocError> {
    if !is_sorted(entries.inner()) || count > 10_000 || number >= count {
        return Ok(None);
    }
    Ok(Some(cut_part(alloc, entries, count, number)?))
}

/// All parts of these entries.
pub(crate) fn parts_of(
    alloc: Global,
    entries: &List<Entry>,
    count: u32,
) -> Result<List<Part>, AllocError> {
    let mut parts = Vec::new(alloc);
    for number in 0..count {
        if let Some(part) = part_of(alloc, entries, count, number)? {
            parts.push(part)?;
        }
    }
    Ok(List::of(parts))
}

/// The files of these parts, one after the other.
pub(crate) fn files_of(alloc: Global, parts: &[Part]) -> Result<Blob, AllocError> {
    let mut files = Blob::of(Vec::new(alloc));
    for part in parts {
        write_part(alloc, part, &mut files)?;
    }
    Ok(files)
}
