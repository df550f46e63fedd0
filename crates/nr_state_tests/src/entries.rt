//! Entries of a world with two accounts, a code, a key and a datum, a datum that came, a postponed
//! receipt that lacks one of its two inputs, and two delayed receipts, of which one more was served;
//! and these with a damage. The bytes are those of a program apart, which spells each record by itself.

use nr_bytes::{Blob, List};
use nr_columns::Entry;
use std::alloc::{AllocError, Global};

/// A key and its value.
pub(crate) type Row = (&'static [u8], &'static [u8]);

/// The entries, in the order of their keys.
pub(crate) const ROWS: [Row; 13] = [
    (
        b"\0aa",
        b"\x05\0\0\0\0\0\0\0\0\0\0\0\0\0\0\0\0\0\0\0\0\0\0\0\0\0\0\0\0\0\0\0V\x94\xd0\x8a.S\xff\xca\xe0\xc3\x10>Z\xd6\xf6\x07j\xbd\x96\x0e\xb1\xf8\xa5ew\x04\x0b\xc1\x02\x8fp+\xe5\0\0\0\0\0\0\0",
    ),
    (
        b"\0bb",
        b"\x07\0\0\0\0\0\0\0\0\0\0\0\0\0\0\0\x01\0\0\0\0\0\0\0\0\0\0\0\0\0\0\0\0\0\0\0\0\0\0\0\0\0\0\0\0\0\0\0\0\0\0\0\0\0\0\0\0\0\0\0\0\0\0\0d\0\0\0\0\0\0\0",
    ),
    (b"\x01aa", b"code"),
    (
        b"\x02aa\x02\0kkkkkkkkkkkkkkkkkkkkkkkkkkkkkkkk",
        b"\x01\0\0\0\0\0\0\0\x01",
    ),
    (
        b"\x03bb,aaaaaaaaaaaaaaaaaaaaaaaaaaaaaaaa",
        b"\x01\x03\0\0\0xyz",
    ),
    (
        b"\x04bb,aaaaaaaaaaaaaaaaaaaaaaaaaaaaaaaa",
        b"rrrrrrrrrrrrrrrrrrrrrrrrrrrrrrrr",
    ),
    (
        b"\x04bb,bbbbbbbbbbbbbbbbbbbbbbbbbbbbbbbb",
        b"rrrrrrrrrrrrrrrrrrrrrrrrrrrrrrrr",
    ),
    (b"\x05bb,rrrrrrrrrrrrrrrrrrrrrrrrrrrrrrrr", b"\x01\0\0\0"),
    (
        b"\x06bb,rrrrrrrrrrrrrrrrrrrrrrrrrrrrrrrr",
        b"\x02\0\0\0aa\x02\0\0\0bbrrrrrrrrrrrrrrrrrrrrrrrrrrrrrrrr\0\x02\0\0\0aa\0kkkkkkkkkkkkkkkkkkkkkkkkkkkkkkkk\0\0\0\0\0\0\0\0\0\0\0\0\0\0\0\0\0\0\0\0\x02\0\0\0aaaaaaaaaaaaaaaaaaaaaaaaaaaaaaaabbbbbbbbbbbbbbbbbbbbbbbbbbbbbbbb\0\0\0\0",
    ),
    (b"\x07", b"\x01\0\0\0\0\0\0\0\x03\0\0\0\0\0\0\0"),
    (
        b"\x07\x01\0\0\0\0\0\0\0",
        b"\x02\0\0\0aa\x02\0\0\0bbdddddddddddddddddddddddddddddddd\0\x02\0\0\0aa\0kkkkkkkkkkkkkkkkkkkkkkkkkkkkkkkk\0\0\0\0\0\0\0\0\0\0\0\0\0\0\0\0\0\0\0\0\0\0\0\0\0\0\0\0",
    ),
    (
        b"\x07\x02\0\0\0\0\0\0\0",
        b"\x02\0\0\0aa\x02\0\0\0cceeeeeeeeeeeeeeeeeeeeeeeeeeeeeeee\x01aaaaaaaaaaaaaaaaaaaaaaaaaaaaaaaa\0",
    ),
    (b"\x09aa,x", b"yz"),
];

fn entry(alloc: Global, key: &[u8], value: &[u8]) -> Result<Entry, AllocError> {
    Ok(Entry {
        key: Blob::of(Vec::from_slice(alloc, key)?),
        value: Blob::of(Vec::from_slice(alloc, value)?),
    })
}

/// Entries of these keys and values.
pub(crate) fn entries_of(alloc: Global, rows: &[Row]) -> Result<List<Entry>, AllocError> {
    let mut list = Vec::new(alloc);
    for (key, value) in rows {
        list.push(entry(alloc, key, value)?)?;
    }
    Ok(List::of(list))
}

/// The entries with another one at a place.
pub(crate) fn with(alloc: Global, at: usize, row: Row) -> Result<List<Entry>, AllocError> {
    let mut list = Vec::new(alloc);
    for (place, (key, value)) in ROWS.iter().enumerate() {
        if place == at {
            list.push(entry(alloc, row.0, row.1)?)?;
        } else {
            list.push(entry(alloc, key, value)?)?;
        }
    }
    Ok(List::of(list))
}

/// The entries but for one.
pub(crate) fn without(alloc: Global, at: usize) -> Result<List<Entry>, AllocError> {
    let mut list = Vec::new(alloc);
    for (place, (key, value)) in ROWS.iter().enumerate() {
        if place != at {
            list.push(entry(alloc, key, value)?)?;
        }
    }
    Ok(List::of(list))
}
