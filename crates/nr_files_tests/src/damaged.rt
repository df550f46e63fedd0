//! Files that are damaged, or that are of another kind. Places are counted by hand from the formats.

use crate::files::{BLOCKS_HEX, GENESIS_HEX, PART, refuses_bytes, with_byte, with_rest};
use crate::gathered::GATHERED;
use std::alloc::Global;
use std::test::Fail;

/// The bytes of hexadecimal digits.
fn bytes_of(alloc: Global, digits: &str) -> Result<Vec<u8>, Fail> {
    Ok(hex::decode(alloc, digits)?)
}

/// The bytes without the last one.
fn without_last(alloc: Global, bytes: &[u8]) -> Result<Vec<u8>, Fail> {
    let mut other = Vec::from_slice(alloc, bytes)?;
    let _last = other.pop();
    Ok(other)
}

/// Words over a file of another kind, and the line that refuses it.
const OF_ANOTHER_KIND: [(&[&str], &[u8], &str); 9] = [
    (
        &["show", "genesis", "free", "F"],
        b"NRB1\0\0\0\0",
        "the file begins with NRB1: it is a blocks file",
    ),
    (
        &["show", "blocks", "F"],
        b"NRG1\0\0\0\0\0\0\0\0",
        "the file begins with NRG1: it is a genesis file",
    ),
    (
        &["show", "part", "F"],
        b"NRB2\0\0\0\0",
        "the file begins with NRB2: it is a blocks file",
    ),
    (
        &["show", "gathered", "F"],
        b"NRP1",
        "the file begins with NRP1: it is a part of a state",
    ),
    (
        &["show", "report", "F"],
        b"NRB3\0\0\0\0\0",
        "the file begins with NRB3: it is a blocks file",
    ),
    (
        &["show", "proof", "F"],
        b"NRS1",
        "the file begins with NRS1: it is a gathered chunk",
    ),
    (
        &["blocks", "F"],
        b"NRB1\0\0\0\0",
        "the file begins with NRB1: it is a blocks file",
    ),
    (
        &["show", "blocks", "F"],
        b"{\"blocks\": []}",
        "the file begins with none of NRB1, NRB2 and NRB3",
    ),
    (
        &["show", "genesis", "free", "F"],
        b"NRG2\0\0\0\0",
        "the file doesn't begin with NRG1",
    ),
];

#[test]
fn another_kind_of_file_is_named(rt: HostRuntime) -> Result<(), Fail> {
    for (words, bytes, line) in OF_ANOTHER_KIND {
        assert!(rt; refuses_bytes(rt.alloc(), words, bytes, line)?, "{line}");
    }
    Ok(())
}

/// What is shown, a damaged file of it, and the line that refuses it.
const DAMAGED: [(&str, &[u8], &str); 16] = [
    ("blocks", b"", "the file ends inside the field at byte 0"),
    (
        "blocks",
        b"NRB1\0\0\0",
        "the file ends inside the field at byte 4",
    ),
    (
        "blocks",
        b"NRB1\0\0\0\0\x07",
        "1 byte stands after the last field, at byte 8",
    ),
    (
        "blocks",
        b"NRB1\0\0\0\0\0\0\0",
        "3 bytes stand after the last field, at byte 8",
    ),
    (
        "blocks",
        b"NRB3\x02\0\0\0\0",
        "the field at byte 4 is neither 0 nor 1: 2",
    ),
    (
        "blocks",
        b"NRB3\0\0\0\0\0\x02",
        "1 byte stands after the last field, at byte 9",
    ),
    (
        "blocks",
        b"NRB3\x01\x02\0\0\0\0\0\0\0\x10\0\0\0",
        "the boundaries at byte 13 are more than 15",
    ),
    (
        "blocks",
        b"NRB3\x01\x02\0\0\0\0\0\0\0\x02\0\0\0\x02\0\0\0mm\x02\0\0\0ab",
        "the boundary at byte 23 isn't above the one before it",
    ),
    (
        "blocks",
        b"NRB1\x01\0\0\0\x01\0\0\0\0\0\0\0\0\0\0\0\0\0\0\0\x01\0\0\0\x01\x01\0\0\0\x02\0\0\0A!",
        "the text at byte 33 is no account id",
    ),
    (
        "blocks",
        b"NRB1\x01\0\0\0\x01\0\0\0\0\0\0\0\0\0\0\0\0\0\0\0\x01\0\0\0\x01\x01\0\0\0\x02\0\0\0\xff\xff",
        "the text at byte 33 isn't UTF-8",
    ),
    ("part", b"", "the file ends inside the field at byte 0"),
    ("part", b"NRP2", "the file doesn't begin with NRP1"),
    (
        "part",
        b"NRP1root",
        "the file ends inside the field at byte 4",
    ),
    (
        "gathered",
        b"NRS",
        "the file ends inside the field at byte 0",
    ),
    ("gathered", b"NRS2", "the file doesn't begin with NRS1"),
    ("gathered", b"NRS1root", "the field at byte 4 can't be read"),
];

#[test]
fn wrong_actions_are_told(rt: HostRuntime) -> Result<(), Fail> {
    let alloc = rt.alloc();
    let blocks = bytes_of(alloc, BLOCKS_HEX)?;
    for (byte, line) in [
        (4, "the action at byte 126 is one of staking"),
        (
            9,
            "the field at byte 126 is no kind of action, key or permission: 9",
        ),
    ] {
        let bytes = with_byte(alloc, &blocks, 126, byte)?;
        assert!(rt;
            refuses_bytes(alloc, &["show", "blocks", "F"], &bytes, line)?,
            "{line}"
        );
    }
    Ok(())
}

#[test]
fn a_damaged_genesis_is_told(rt: HostRuntime) -> Result<(), Fail> {
    let alloc = rt.alloc();
    let words = ["show", "genesis", "free", "F"];
    let genesis = bytes_of(alloc, GENESIS_HEX)?;
    assert_eq!(rt; genesis.len(), 226);
    for (at, byte, line) in [
        (12, 9, "the field at byte 12 is no kind of entry: 9"),
        (174, 4, "the field at byte 174 is no kind of entry: 4"),
        (
            184,
            7,
            "the field at byte 184 is no kind of key or permission: 7",
        ),
        (
            225,
            5,
            "the field at byte 225 is no kind of key or permission: 5",
        ),
    ] {
        let bytes = with_byte(alloc, &genesis, at, byte)?;
        assert!(rt; refuses_bytes(alloc, &words, &bytes, line)?, "{line}");
    }
    let cut = "the file ends inside the field at byte 225";
    assert!(rt; refuses_bytes(alloc, &words, &without_last(alloc, &genesis)?, cut)?);
    let rest = "1 byte stands after the last field, at byte 226";
    assert!(rt; refuses_bytes(alloc, &words, &with_rest(alloc, &genesis)?, rest)?);
    Ok(())
}

#[test]
fn damaged_files_are_told(rt: HostRuntime) -> Result<(), Fail> {
    let alloc = rt.alloc();
    for (what, bytes, line) in DAMAGED {
        assert!(rt;
            refuses_bytes(alloc, &["show", what, "F"], bytes, line)?,
            "{line}"
        );
    }
    for (what, whole) in [("part", PART), ("gathered", GATHERED)] {
        let bytes = with_rest(alloc, whole)?;
        let place = whole.len();
        let line = format!(in alloc; "1 byte stands after the last field, at byte {place}")?;
        assert!(rt; refuses_bytes(alloc, &["show", what, "F"], &bytes, line.as_str())?);
    }
    Ok(())
}
