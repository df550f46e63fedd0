//! Each row's count and digest were computed outside this repository, from the rules of the trie and of
//! the walk alone.

use crate::states::{is_sorted, push_entry};
use nr_bytes::{Blob, List};
use nr_gather::gather;
use nr_ids::Hash32;
use nr_triedef::value_hash;
use nr_trielist::Hashes;
use nr_walk::{Entry, Searched};
use std::alloc::{AllocError, Global};
use std::test::Fail;

/// What is gathered of some entries: the nibbles that are searched, each alone or with all below it, how many texts
/// are gathered, and the SHA-256 of all of them, one behind the other.
struct Row {
    shows: &'static str,
    entries: &'static [(&'static str, &'static str)],
    searched: &'static [(&'static str, bool)],
    count: usize,
    digest: [u8; 32],
}

const ROWS: [Row; 12] = [
    Row {
        shows: "no entries",
        entries: &[],
        searched: &[("\x06", true)],
        count: 0,
        digest: *b"\
            \xe3\xb0\xc4\x42\x98\xfc\x1c\x14\x9a\xfb\xf4\xc8\x99\x6f\xb9\x24\
            \x27\xae\x41\xe4\x64\x9b\x93\x4c\xa4\x95\x99\x1b\x78\x52\xb8\x55\
        ",
    },
    Row {
        shows: "nothing searched",
        entries: &[("a", "abc"), ("b", "x")],
        searched: &[],
        count: 1,
        digest: *b"\
            \x20\x95\xaa\xd5\xf6\x76\x20\xfe\x51\xf9\xba\x61\x61\x3c\x52\x8d\
            \x79\x72\x7e\x49\xf3\x19\x7f\x23\x47\xe5\xed\x58\x0d\x28\xf2\xea\
        ",
    },
    Row {
        shows: "the empty key alone",
        entries: &[("", "v")],
        searched: &[("", false)],
        count: 2,
        digest: *b"\
            \x48\xfb\x38\x61\xbf\x18\x28\x15\xcb\x47\x30\x42\x68\x67\x87\x9b\
            \xf5\xfd\xab\x25\x83\x1d\x4b\xe8\x6c\x81\xe3\x47\x03\x4a\x9c\xe4\
        ",
    },
    Row {
        shows: "one key beside the searched one",
        entries: &[("a", "abc")],
        searched: &[("\x06\x01\x06\x02", false)],
        count: 1,
        digest: *b"\
            \x82\xe9\x06\xec\x7f\x6e\x4b\xd5\x6d\xf3\xec\x39\xa6\xeb\x45\xb0\
            \xd0\xfc\xe0\x72\x19\x83\x24\x15\x67\x6b\xd0\x34\x76\x00\xa3\x12\
        ",
    },
    Row {
        shows: "a branch with its value",
        entries: &[("a", "abc"), ("ab", "abc"), ("b1", "xyz")],
        searched: &[("\x06\x01", false)],
        count: 6,
        digest: *b"\
            \x5c\x82\xc4\xc7\x52\xdb\x59\xfb\x91\x49\x14\x77\xc8\x22\x2e\x86\
            \x1e\x7a\xcd\x95\xa7\x8d\x7a\x5e\xac\x85\x16\x8e\x5c\x0b\x5a\x9b\
        ",
    },
    Row {
        shows: "a key below another",
        entries: &[("a", "abc"), ("ab", "abc"), ("b1", "abc")],
        searched: &[("\x06\x01\x06\x02", false)],
        count: 6,
        digest: *b"\
            \xef\x9e\x65\xf0\xb7\xcc\xf5\x96\x2c\x91\xcd\xec\x20\x9a\x29\x74\
            \xc2\x46\x41\xf0\xba\x70\x7e\x3e\x4c\x92\x54\xd0\x27\xec\x5b\xc5\
        ",
    },
    Row {
        shows: "all keys",
        entries: &[("a", "abc"), ("ab", "abc"), ("b1", "abc")],
        searched: &[("", true)],
        count: 6,
        digest: *b"\
            \xf0\x42\xf5\xdb\x0c\x79\xe4\x64\x3c\xc4\xc7\xf3\x5a\x08\x39\x80\
            \x9d\xbd\x8d\x03\x68\x28\x7d\x09\xb2\x01\x6e\xa0\xea\xe7\x58\x4a\
        ",
    },
    Row {
        shows: "a prefix of an odd count",
        entries: &[("\x10", "1"), ("\x11", "2"), ("\x20", "3")],
        searched: &[("\x01", true)],
        count: 7,
        digest: *b"\
            \x1c\x96\x9c\xa4\xbf\x58\xd3\x48\xe8\xb6\xc6\xd7\x1b\xee\xca\x0f\
            \x11\x75\xe1\x0e\xf4\xdf\xa8\xd1\x4c\x8b\x03\x5f\xf4\xb7\x40\x58\
        ",
    },
    Row {
        shows: "a place past an extension",
        entries: &[("ab1", "x"), ("ab2", "y"), ("c", "z")],
        searched: &[("\x06\x01\x06\x03", false)],
        count: 5,
        digest: *b"\
            \x39\x8d\xfd\x98\x3a\xfa\xa4\xac\xde\x3f\x55\xd2\xce\xc1\x08\x21\
            \x13\x15\x1a\x2c\x60\x14\xe1\x37\xd7\x5c\x45\x7e\x05\x8f\xfd\x36\
        ",
    },
    Row {
        shows: "an extension beside the way",
        entries: &[("\x11ab1", "x"), ("\x11ab2", "y"), ("!", "z")],
        searched: &[("\x02\x01", false)],
        count: 4,
        digest: *b"\
            \x53\x35\xd5\xaa\x05\xa9\x44\xd7\x92\x14\x96\x50\x45\x86\x20\x01\
            \x2a\x78\x0f\xa2\x49\x51\xce\xfc\x7d\xec\xce\x6a\xc1\x56\x94\x78\
        ",
    },
    Row {
        shows: "two tries alike",
        entries: &[("\x11a", "x"), ("\x11b", "y"), ("!a", "x"), ("!b", "y")],
        searched: &[("", true)],
        count: 7,
        digest: *b"\
            \x5a\x51\xa1\xea\x76\x87\xb5\xa9\x53\x4e\xad\x35\x86\x59\x1c\xcc\
            \x80\x90\xdc\x85\x64\x59\x21\x1e\xc7\x03\x0e\x0f\x78\xaa\x15\x28\
        ",
    },
    Row {
        shows: "keys and prefixes",
        entries: &[
            ("\0a", "1"),
            ("\0b", "2"),
            ("\x01a", "3"),
            ("\x02a\x02k", "4"),
            ("\x02b\x02k", "5"),
            ("\x07", "6"),
            ("\x07\0", "7"),
        ],
        searched: &[
            ("\0\0\x06\x01", false),
            ("\0\x01\x06\x01", false),
            ("\0\x02\x06\x01\0\x02", true),
            ("\0\x07", true),
        ],
        count: 18,
        digest: *b"\
            \x6c\x38\x26\xac\x95\x09\x07\x2d\xe9\xc6\x84\xab\x5d\x96\x17\x1b\
            \x17\xea\x2d\x98\xaa\x0b\x79\x16\x53\xc1\xe4\xcf\x52\x58\xc4\x46\
        ",
    },
];

fn entries_of(alloc: Global, rows: &[(&str, &str)]) -> Result<List<Entry>, AllocError> {
    let mut entries = Vec::new(alloc);
    for (key, value) in rows {
        push_entry(alloc, &mut entries, key.as_bytes(), value.as_bytes())?;
    }
    Ok(List::of(entries))
}

fn searched_of(alloc: Global, rows: &[(&str, bool)]) -> Result<Vec<Searched>, AllocError> {
    let mut list = Vec::new(alloc);
    for (path, below) in rows {
        let path = Blob::of(Vec::from_slice(alloc, path.as_bytes())?);
        list.push(Searched {
            path,
            below: *below,
        })?;
    }
    Ok(list)
}

/// How many texts are gathered, and the SHA-256 of all of them; an error where the keys don't rise.
fn gathered(
    alloc: Global,
    entries: &List<Entry>,
    searched: &[(&str, bool)],
) -> Result<(usize, Hash32), AllocError> {
    if !is_sorted(entries.inner()) {
        return Err(AllocError);
    }
    let searched = searched_of(alloc, searched)?;
    let mut hashes = Hashes::new(alloc);
    let texts = gather(alloc, entries, &searched, &mut hashes)?;
    let mut all = Vec::new(alloc);
    for text in texts.inner() {
        all.extend_from_slice(text.inner())?;
    }
    let digest = value_hash(&all);
    Ok((texts.inner().len(), digest))
}

#[test]
fn texts_are_gathered(rt: HostRuntime) -> Result<(), Fail> {
    let alloc = rt.alloc();
    for row in &ROWS {
        let shows = row.shows;
        let entries = entries_of(alloc, row.entries)?;
        let (count, digest) = gathered(alloc, &entries, row.searched)?;
        assert_eq!(rt; count, row.count, "{shows}");
        assert!(rt; digest == Hash32(row.digest), "{shows}");
    }
    Ok(())
}

#[test]
fn long_values_alike(rt: HostRuntime) -> Result<(), Fail> {
    let alloc = rt.alloc();
    let long = [b'x'; 2000];
    let mut entries = Vec::new(alloc);
    push_entry(alloc, &mut entries, b"a", &long)?;
    push_entry(alloc, &mut entries, b"b", &long)?;
    let want = *b"\
        \x23\xc0\x88\xd1\x7c\x7c\x03\xb5\x58\x5a\xc7\x6f\x23\xbc\x4a\x33\
        \x7f\x72\xf5\xa9\x03\xec\x54\xc1\xc7\x1d\xdf\xdb\x6e\xfa\x79\xca\
    ";
    let (count, digest) = gathered(alloc, &List::of(entries), &[("", true)])?;
    assert_eq!(rt; count, 4);
    assert!(rt; digest == Hash32(want));
    Ok(())
}
