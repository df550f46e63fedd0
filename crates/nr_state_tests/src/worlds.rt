//! Entries of a valid world, and of none.

use crate::entries::{ROWS, Row, entries_of, with, without};
use nr_config::Config;
use nr_worlds::{WorldFault, check_world};
use std::process::Abort;
use std::test::Fail;

#[test]
fn entries_of_a_state_are_a_world(rt: HostRuntime) -> Result<(), Fail> {
    let alloc = rt.alloc();
    let entries = entries_of(alloc, &ROWS)?;
    assert_eq!(rt; check_world(alloc, &entries, &Config::free()), Ok(()));
    Ok(())
}

#[test]
fn no_entries_are_a_world(rt: HostRuntime) -> Result<(), Fail> {
    let alloc = rt.alloc();
    let entries = entries_of(alloc, &[])?;
    assert_eq!(rt; check_world(alloc, &entries, &Config::free()), Ok(()));
    Ok(())
}

/// Where an entry is another one, and which.
const DAMAGES: [(usize, Row); 26] = [
    // Another usage.
    (
        0,
        (
            b"\0aa",
            b"\x05\0\0\0\0\0\0\0\0\0\0\0\0\0\0\0\0\0\0\0\0\0\0\0\0\0\0\0\0\0\0\0V\x94\xd0\x8a.S\xff\xca\xe0\xc3\x10>Z\xd6\xf6\x07j\xbd\x96\x0e\xb1\xf8\xa5ew\x04\x0b\xc1\x02\x8fp+\xe6\0\0\0\0\0\0\0",
        ),
    ),
    // Another code hash.
    (
        0,
        (
            b"\0aa",
            b"\x05\0\0\0\0\0\0\0\0\0\0\0\0\0\0\0\0\0\0\0\0\0\0\0\0\0\0\0\0\0\0\0\x01\x01\x01\x01\x01\x01\x01\x01\x01\x01\x01\x01\x01\x01\x01\x01\x01\x01\x01\x01\x01\x01\x01\x01\x01\x01\x01\x01\x01\x01\x01\x01\xe5\0\0\0\0\0\0\0",
        ),
    ),
    // Too many tokens.
    (
        0,
        (
            b"\0aa",
            b"\0\0\0\0\0\0\0\0\0\0\0\0\0\0\0\x80\0\0\0\0\0\0\0\0\0\0\0\0\0\0\0\0V\x94\xd0\x8a.S\xff\xca\xe0\xc3\x10>Z\xd6\xf6\x07j\xbd\x96\x0e\xb1\xf8\xa5ew\x04\x0b\xc1\x02\x8fp+\xe5\0\0\0\0\0\0\0",
        ),
    ),
    // A name of one byte.
    (
        0,
        (
            b"\0a",
            b"\x05\0\0\0\0\0\0\0\0\0\0\0\0\0\0\0\0\0\0\0\0\0\0\0\0\0\0\0\0\0\0\0V\x94\xd0\x8a.S\xff\xca\xe0\xc3\x10>Z\xd6\xf6\x07j\xbd\x96\x0e\xb1\xf8\xa5ew\x04\x0b\xc1\x02\x8fp+\xe5\0\0\0\0\0\0\0",
        ),
    ),
    // An account of 71 bytes.
    (
        0,
        (
            b"\0aa",
            b"\x05\0\0\0\0\0\0\0\0\0\0\0\0\0\0\0\0\0\0\0\0\0\0\0\0\0\0\0\0\0\0\0V\x94\xd0\x8a.S\xff\xca\xe0\xc3\x10>Z\xd6\xf6\x07j\xbd\x96\x0e\xb1\xf8\xa5ew\x04\x0b\xc1\x02\x8fp+\xe5\0\0\0\0\0\0",
        ),
    ),
    // The account is the system.
    (
        1,
        (
            b"\0system",
            b"\x07\0\0\0\0\0\0\0\0\0\0\0\0\0\0\0\x01\0\0\0\0\0\0\0\0\0\0\0\0\0\0\0\0\0\0\0\0\0\0\0\0\0\0\0\0\0\0\0\0\0\0\0\0\0\0\0\0\0\0\0\0\0\0\0d\0\0\0\0\0\0\0",
        ),
    ),
    // Code without an account.
    (2, (b"\x01ab", b"code")),
    // A key without an account.
    (
        3,
        (
            b"\x02ab\x02\0kkkkkkkkkkkkkkkkkkkkkkkkkkkkkkkk",
            b"\x01\0\0\0\0\0\0\0\x01",
        ),
    ),
    // A key of 31 bytes.
    (
        3,
        (
            b"\x02aa\x02\0kkkkkkkkkkkkkkkkkkkkkkkkkkkkkkk",
            b"\x01\0\0\0\0\0\0\0\x01",
        ),
    ),
    // A datum without an account.
    (12, (b"\x09ab,x", b"yz")),
    // A longer datum.
    (12, (b"\x09aa,x", b"yyz")),
    // Another column.
    (12, (b"\x0aaa,x", b"yz")),
    // A data id of 31 bytes.
    (
        4,
        (
            b"\x03bb,aaaaaaaaaaaaaaaaaaaaaaaaaaaaaaa",
            b"\x01\x03\0\0\0xyz",
        ),
    ),
    // Another awaits.
    (
        5,
        (
            b"\x04bb,aaaaaaaaaaaaaaaaaaaaaaaaaaaaaaaa",
            b"dddddddddddddddddddddddddddddddd",
        ),
    ),
    // A datum that none awaits.
    (
        5,
        (
            b"\x04bb,dddddddddddddddddddddddddddddddd",
            b"rrrrrrrrrrrrrrrrrrrrrrrrrrrrrrrr",
        ),
    ),
    // Two are missing.
    (
        7,
        (b"\x05bb,rrrrrrrrrrrrrrrrrrrrrrrrrrrrrrrr", b"\x02\0\0\0"),
    ),
    // A count of another receipt.
    (
        7,
        (b"\x05bb,dddddddddddddddddddddddddddddddd", b"\x01\0\0\0"),
    ),
    // A receipt under another id.
    (
        8,
        (
            b"\x06bb,dddddddddddddddddddddddddddddddd",
            b"\x02\0\0\0aa\x02\0\0\0bbrrrrrrrrrrrrrrrrrrrrrrrrrrrrrrrr\0\x02\0\0\0aa\0kkkkkkkkkkkkkkkkkkkkkkkkkkkkkkkk\0\0\0\0\0\0\0\0\0\0\0\0\0\0\0\0\0\0\0\0\x02\0\0\0aaaaaaaaaaaaaaaaaaaaaaaaaaaaaaaabbbbbbbbbbbbbbbbbbbbbbbbbbbbbbbb\0\0\0\0",
        ),
    ),
    // An input stands twice.
    (
        8,
        (
            b"\x06bb,rrrrrrrrrrrrrrrrrrrrrrrrrrrrrrrr",
            b"\x02\0\0\0aa\x02\0\0\0bbrrrrrrrrrrrrrrrrrrrrrrrrrrrrrrrr\0\x02\0\0\0aa\0kkkkkkkkkkkkkkkkkkkkkkkkkkkkkkkk\0\0\0\0\0\0\0\0\0\0\0\0\0\0\0\0\0\0\0\0\x02\0\0\0aaaaaaaaaaaaaaaaaaaaaaaaaaaaaaaaaaaaaaaaaaaaaaaaaaaaaaaaaaaaaaaa\0\0\0\0",
        ),
    ),
    // A receipt of a datum.
    (
        8,
        (
            b"\x06bb,rrrrrrrrrrrrrrrrrrrrrrrrrrrrrrrr",
            b"\x02\0\0\0aa\x02\0\0\0bbrrrrrrrrrrrrrrrrrrrrrrrrrrrrrrrr\x01aaaaaaaaaaaaaaaaaaaaaaaaaaaaaaaa\0",
        ),
    ),
    // A gas price of 2^64.
    (
        8,
        (
            b"\x06bb,rrrrrrrrrrrrrrrrrrrrrrrrrrrrrrrr",
            b"\x02\0\0\0aa\x02\0\0\0bbrrrrrrrrrrrrrrrrrrrrrrrrrrrrrrrr\0\x02\0\0\0aa\0kkkkkkkkkkkkkkkkkkkkkkkkkkkkkkkk\0\0\0\0\0\0\0\0\x01\0\0\0\0\0\0\0\0\0\0\0\x02\0\0\0aaaaaaaaaaaaaaaaaaaaaaaaaaaaaaaabbbbbbbbbbbbbbbbbbbbbbbbbbbbbbbb\0\0\0\0",
        ),
    ),
    // More were served than came.
    (9, (b"\x07", b"\x04\0\0\0\0\0\0\0\x03\0\0\0\0\0\0\0")),
    // One more waits.
    (9, (b"\x07", b"\x01\0\0\0\0\0\0\0\x04\0\0\0\0\0\0\0")),
    // One fewer waits.
    (9, (b"\x07", b"\x02\0\0\0\0\0\0\0\x03\0\0\0\0\0\0\0")),
    // No receipt at a number.
    (
        11,
        (
            b"\x07\x05\0\0\0\0\0\0\0",
            b"\x02\0\0\0aa\x02\0\0\0cceeeeeeeeeeeeeeeeeeeeeeeeeeeeeeee\x01aaaaaaaaaaaaaaaaaaaaaaaaaaaaaaaa\0",
        ),
    ),
    // A delayed receipt with a byte behind it.
    (
        11,
        (
            b"\x07\x02\0\0\0\0\0\0\0",
            b"\x02\0\0\0aa\x02\0\0\0cceeeeeeeeeeeeeeeeeeeeeeeeeeeeeeee\x01aaaaaaaaaaaaaaaaaaaaaaaaaaaaaaaa\0\0",
        ),
    ),
];

#[test]
fn a_damaged_entry_is_none_of_a_world(rt: HostRuntime) -> Result<(), Fail> {
    let alloc = rt.alloc();
    for (at, row) in DAMAGES {
        let entries = with(alloc, at, row)?;
        let answer = check_world(alloc, &entries, &Config::free());
        assert_eq!(rt; answer, Err(WorldFault::NotWorld));
    }
    Ok(())
}

#[test]
fn no_world_lacks_an_entry(rt: HostRuntime) -> Result<(), Fail> {
    let alloc = rt.alloc();
    for at in 0..ROWS.len() {
        let entries = without(alloc, at)?;
        let answer = check_world(alloc, &entries, &Config::free());
        // Without the datum that came two inputs are missing, and without the account that owns
        // nothing the postponed receipt may still wait.
        let want = if at == 1 {
            Ok(())
        } else {
            Err(WorldFault::NotWorld)
        };
        assert_eq!(rt; answer, want);
    }
    Ok(())
}

#[test]
fn the_entries_of_a_world_rise(rt: HostRuntime) -> Result<(), Fail> {
    let alloc = rt.alloc();
    let mut rows = ROWS;
    rows.swap(0, 1);
    let entries = entries_of(alloc, &rows)?;
    let answer = check_world(alloc, &entries, &Config::free());
    assert_eq!(rt; answer, Err(WorldFault::NotWorld));
    Ok(())
}
