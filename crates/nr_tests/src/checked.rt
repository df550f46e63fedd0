//! Schedules that drive a run: what they write, and which are refused.

use crate::config_text::{FEES, config_text};
use crate::setting::{Ended, end_failing, end_of, shelf_of_all, shelf_with, text_of};
use crate::{resharded, schedules, sharded, worked};
use nr_top::Status;
use std::alloc::Global;
use std::test::Fail;

/// The words of a check.
const WORDS: [&str; 5] = ["check", "free", "G", "B", "S"];

/// What the shelf tells where all files were asked for.
const ALL: &str = "Some([\"G\", \"B\", \"S\"])";

/// The most bytes of a schedule.
const LIMIT: usize = 1_048_576;

/// One schedule with what it writes, each put together of pieces.
struct Row {
    genesis: &'static str,
    blocks: &'static str,
    schedule: &'static [&'static str],
    text: &'static [&'static str],
}

const ROWS: [Row; 7] = [
    Row {
        genesis: sharded::MISSING_GENESIS,
        blocks: sharded::MISSING_BLOCKS,
        schedule: &[schedules::SKEWED],
        text: &[schedules::SKEWED_LINES, schedules::SKEWED_TOTALS],
    },
    Row {
        genesis: sharded::MISSING_GENESIS,
        blocks: sharded::MISSING_BLOCKS,
        schedule: &[schedules::SKEWED, "rest\nopen 0\n"],
        text: &[
            schedules::SKEWED_LINES,
            schedules::REST_LINES,
            schedules::REST_TOTALS,
        ],
    },
    Row {
        genesis: worked::GENESIS,
        blocks: worked::TRANSFER,
        schedule: &[schedules::OUT_OF_ORDER],
        text: &[schedules::OUT_OF_ORDER_LINES],
    },
    Row {
        genesis: worked::GENESIS,
        blocks: worked::TRANSFER,
        schedule: &["rest\n"],
        text: &[schedules::REST_ALONE_LINES],
    },
    Row {
        genesis: resharded::GENESIS,
        blocks: resharded::BLOCKS,
        schedule: &["open 0\nseal 0\nreshard\npublish 0\nopen 1\nreshard\nopen 1\nseal 1\n"],
        text: &[
            "ok\nok\n",
            resharded::FIRST_CHUNK,
            "no 5 0 0\nok\nno 7 1 0\nok\nok\nok\n",
            resharded::LAST_CHUNK,
            resharded::TOTALS,
        ],
    },
    Row {
        genesis: resharded::GENESIS,
        blocks: resharded::BLOCKS,
        schedule: &["rest\nreshard\n"],
        text: &[
            "ok\nok\n",
            resharded::FIRST_CHUNK,
            "ok\nok\nok\nok\n",
            "chunk 2 0 496f3edddc3cf5abb17cb1a8dc4c244678caebdc891b1be78bb80ad7c43ff2f3 0 0\n",
            "ok\nok\nok\n",
            resharded::LAST_CHUNK,
            "ok\nno 6 0 0\n",
            resharded::TOTALS,
        ],
    },
    Row {
        genesis: worked::NO_GENESIS,
        blocks: worked::NO_BLOCKS,
        schedule: &[],
        text: &[worked::EMPTY_REPORT],
    },
];

/// How a check ends.
fn check(alloc: Global, genesis: &str, blocks: &str, schedule: &[u8]) -> Result<Ended, Fail> {
    let shelf = shelf_with(alloc, genesis, blocks, "S", schedule)?;
    end_of(alloc, &WORDS, shelf)
}

/// How a check ends over one transfer.
fn check_transfer(alloc: Global, schedule: &[u8]) -> Result<Ended, Fail> {
    check(alloc, worked::GENESIS, worked::TRANSFER, schedule)
}

#[test]
fn schedules_write_their_steps(rt: HostRuntime) -> Result<(), Fail> {
    for row in &ROWS {
        let schedule = text_of(rt.alloc(), row.schedule)?;
        let text = text_of(rt.alloc(), row.text)?;
        let ended = check(rt.alloc(), row.genesis, row.blocks, schedule.as_bytes())?;
        assert_eq!(rt; ended.status, Status::Done);
        assert!(rt; ended.asked(rt.alloc(), ALL)?);
        assert_eq!(rt; ended.sink.bytes(), text.as_bytes());
    }
    Ok(())
}

/// A schedule that is refused, and its first faulty line.
const FAULTY: [(&[u8], u64); 18] = [
    (b"\n", 1),
    (b"open 0\n\n", 2),
    (b"open 0", 1),
    (b"open 0\nseal 0\nrest", 3),
    (b"open 00\n", 1),
    (b"open 1\n", 1),
    (b"open -0\n", 1),
    (b"open 0 \n", 1),
    (b"open  0\n", 1),
    (b"open 0\r\n", 1),
    (b"open\n", 1),
    (b"Open 0\n", 1),
    (b"rest 0\n", 1),
    (b"take 0 0\n", 1),
    (b"open 0\ntake 0 1 1\n", 2),
    (b"take 0 0 18446744073709551616\n", 1),
    (b"take 0 0 1 1\n", 1),
    (b"open \xff\n", 1),
];

#[test]
fn faulty_lines_are_told(rt: HostRuntime) -> Result<(), Fail> {
    for (schedule, line) in FAULTY {
        let ended = check_transfer(rt.alloc(), schedule)?;
        assert_eq!(rt; ended.status, Status::Schedule { kind: 1, line });
        assert!(rt; ended.wrote_nothing(rt.alloc(), ALL)?);
    }
    Ok(())
}

#[test]
fn schedules_have_a_greatest_length(rt: HostRuntime) -> Result<(), Fail> {
    for (bytes, kind, line) in [(LIMIT, 1, 1), (LIMIT + 1, 0, 0)] {
        let schedule = vec![in rt.alloc(); b'\n'; bytes]?;
        let ended = check_transfer(rt.alloc(), &schedule)?;
        assert_eq!(rt; ended.status, Status::Schedule { kind, line });
    }
    Ok(())
}

/// What a check by `rest` under a configuration's file ends with, where a load or a write fails.
fn check_failing(alloc: Global, load: u64, write: u64) -> Result<Ended, Fail> {
    let config = config_text(alloc, &[&FEES])?;
    let more: [(&str, &[u8]); 2] = [("C", config.as_bytes()), ("S", b"rest\n")];
    let shelf = shelf_of_all(alloc, worked::GENESIS, worked::TRANSFER, &more, &[load])?;
    end_failing(alloc, &["check", "C", "G", "B", "S"], shelf, &[write])
}

/// What the shelf tells where each load failed, up to the one of the schedule.
const ASKED: [&str; 4] = [
    "Some([\"C\"])",
    "Some([\"C\", \"G\"])",
    "Some([\"C\", \"G\", \"B\"])",
    "Some([\"C\", \"G\", \"B\", \"S\"])",
];

#[test]
fn each_load_may_fail(rt: HostRuntime) -> Result<(), Fail> {
    for (load, asked) in (1..5).zip(ASKED) {
        let ended = check_failing(rt.alloc(), load, 0)?;
        assert_eq!(rt; ended.status, Status::ReadFault);
        assert!(rt; ended.wrote_nothing(rt.alloc(), asked)?);
    }
    Ok(())
}

/// What a check of one transfer by `rest` writes of its steps before each line of the run's report.
const STEPS: [&str; 10] = [
    "ok\nok\n",
    "",
    "",
    "ok\nok\nok\nok\n",
    "",
    "ok\n",
    "",
    "",
    "",
    "",
];

/// A report of ten lines with these steps between.
fn with_steps(alloc: Global, report: &str) -> Result<String, Fail> {
    let mut text = String::new(alloc);
    for (line, steps) in report.lines().zip(STEPS) {
        text.push_str(steps)?;
        text.push_str(line)?;
        text.push_str("\n")?;
    }
    Ok(text)
}

/// Whether a check whose write of this number fails leaves what was written before, having asked for all files.
fn leaves(alloc: Global, write: u64, front: &[u8]) -> Result<bool, Fail> {
    let ended = check_failing(alloc, 0, write)?;
    let fault = ended.status == Status::WriteFault;
    Ok(fault && ended.sink.bytes() == front && ended.asked(alloc, ASKED[3])?)
}

#[test]
fn each_write_may_fail(rt: HostRuntime) -> Result<(), Fail> {
    let text = with_steps(rt.alloc(), worked::FEES_REPORT)?;
    let mut front = Vec::new(rt.alloc());
    for (piece, write) in text.as_bytes().chunks(10).zip(1..u64::MAX) {
        assert!(rt; leaves(rt.alloc(), write, &front)?, "{write}");
        front.extend_from_slice(piece)?;
    }
    let ended = check_failing(rt.alloc(), 0, 0)?;
    assert_eq!(rt; ended.status, Status::Done);
    assert_eq!(rt; ended.sink.bytes(), text.as_bytes());
    Ok(())
}
