//! What is refused, in words.

use crate::chains::{GENESIS, TRANSFER};
use crate::setting::ended_by;
use std::test::Fail;

/// Texts of a genesis and of blocks, and the line that refuses them.
const FAULTY: [(&str, &str, &str); 8] = [
    ("{", TRANSFER, "G: the text is no JSON"),
    (
        "{\"boundaries\": [], \"entries\": [{\"kind\": \"account\", \"account_id\": \"alice\", \"locked\": \"0\"}]}",
        TRANSFER,
        "G: .entries[0].amount is missing",
    ),
    (
        "{\"boundaries\": [], \"entries\": [{\"kind\": \"account\", \"account_id\": \"alice\", \"amount\": \"1\",\
        \"locked\": \"0\", \"storage_usage\": 5}]}",
        "{",
        "G: .entries[0].storage_usage is 5, but 100 is counted",
    ),
    (GENESIS, "{", "B: the text is no JSON"),
    (GENESIS, "[]", "B: the text is no object"),
    (
        GENESIS,
        "{\"blocks\": [{\"height\": 1, \"timestamp\": 0, \"chunks\": [[], []]}]}",
        "The blocks are refused: the block of height 1 has not one chunk for each shard.",
    ),
    (
        GENESIS,
        "{\"blocks\": [{\"height\": 2, \"timestamp\": 0, \"chunks\": [[]]}]}",
        "The blocks are refused: a block has the height 2, which is not its number, counted from 1.",
    ),
    (
        GENESIS,
        "{\"version\": 3, \"reshard\": {\"height\": 1, \"boundaries\": [\"mm\"]}, \"blocks\": [\
        {\"height\": 1, \"timestamp\": 0, \"price\": 0, \"chunks\": [[], []]}]}",
        "The blocks are refused: they change their shards at height 1, but there or just before a block or a \
        chunk is missing.",
    ),
];

#[test]
fn texts_and_chains_are_refused_in_words(rt: HostRuntime) -> Result<(), Fail> {
    let alloc = rt.alloc();
    for (genesis, blocks, line) in FAULTY {
        let files: [(&str, &[u8]); 2] = [("G", genesis.as_bytes()), ("B", blocks.as_bytes())];
        let end = ended_by(alloc, &["replay", "free", "G", "B"], &files)?;
        assert!(rt; end.refused(alloc, 20, line)?, "{line}");
        let driven = ended_by(alloc, &["check", "free", "G", "B", "S"], &files)?;
        assert!(rt; driven.refused(alloc, 20, line)?, "{line}");
    }
    Ok(())
}

#[test]
fn a_schedule_is_refused_in_words(rt: HostRuntime) -> Result<(), Fail> {
    let alloc = rt.alloc();
    let files: [(&str, &[u8]); 3] = [
        ("G", GENESIS.as_bytes()),
        ("B", TRANSFER.as_bytes()),
        ("S", b"open 0\nopen 1\n"),
    ];
    let end = ended_by(alloc, &["check", "free", "G", "B", "S"], &files)?;
    assert!(rt;
        end.refused(
            alloc,
            20,
            "The schedule is refused: line 2 (from 1) is no step, or names a shard that is not there.",
        )?
    );
    Ok(())
}

#[test]
fn a_schedule_may_be_too_long(rt: HostRuntime) -> Result<(), Fail> {
    let alloc = rt.alloc();
    let long = vec![in alloc; b'\n'; 1_048_577]?;
    let files: [(&str, &[u8]); 3] = [
        ("G", GENESIS.as_bytes()),
        ("B", TRANSFER.as_bytes()),
        ("S", long.as_slice()),
    ];
    let end = ended_by(alloc, &["check", "free", "G", "B", "S"], &files)?;
    assert!(rt;
        end.refused(
            alloc,
            20,
            "The schedule is refused: its file is longer than 1048576 bytes.",
        )?
    );
    Ok(())
}

#[test]
fn files_that_are_not_there_are_named(rt: HostRuntime) -> Result<(), Fail> {
    let alloc = rt.alloc();
    let files: [(&str, &[u8]); 3] = [
        ("G", GENESIS.as_bytes()),
        ("B", TRANSFER.as_bytes()),
        ("C", b"[]"),
    ];
    let rows: [(&[&str], u8, &str, &str); 5] = [
        (
            &["replay", "free", "G", "X"],
            5,
            "the file X can't be read",
            "Some([\"G\", \"X\"])",
        ),
        (
            &["replay", "free", "X", "B"],
            5,
            "the file X can't be read",
            "Some([\"X\"])",
        ),
        (
            &["replay", "X", "G", "B"],
            5,
            "the file X can't be read",
            "Some([\"X\"])",
        ),
        (
            &["check", "free", "G", "B", "X"],
            5,
            "the file X can't be read",
            "Some([\"G\", \"B\", \"X\"])",
        ),
        (&["replay", "C", "G", "B"], 2, "2 1 0", "Some([\"C\"])"),
    ];
    for (words, number, line, asked) in rows {
        let end = ended_by(alloc, words, &files)?;
        assert!(rt; end.refused(alloc, number, line)?, "{asked}");
        assert!(rt; end.asked(alloc, asked)?, "{asked}");
    }
    Ok(())
}
