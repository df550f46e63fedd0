//! Runs under a configuration that is a file.

use crate::config_text::{FEES, config_text};
use crate::setting::{end_of, run_by, shelf_of, shelf_with};
use crate::{contracts, resharded, sharded, worked};
use nr_top::Status;
use std::alloc::Global;
use std::test::Fail;

/// The most bytes of a configuration's file.
const LIMIT: usize = 1_048_576;

/// What the shelf tells where all three files were asked for.
const ALL: &str = "Some([\"C\", \"G\", \"B\"])";

/// Numbers of entries in place of others.
type Changes = &'static [&'static [(&'static str, &'static str)]];

/// One run with its report.
struct Row {
    changes: Changes,
    genesis: &'static str,
    blocks: &'static str,
    report: &'static str,
}

const ROWS: [Row; 15] = [
    Row {
        changes: &[&[("chunk_gas_limit", "1"), ("action_receipt_send_local", "1")]],
        genesis: worked::GENESIS,
        blocks: resharded::DELAYED_BLOCKS,
        report: resharded::DELAYED_REPORT,
    },
    Row {
        changes: &[&FEES],
        genesis: worked::GENESIS,
        blocks: worked::TRANSFER,
        report: worked::FEES_REPORT,
    },
    Row {
        changes: &[&FEES],
        genesis: worked::GENESIS,
        blocks: worked::TRANSFER_IN_FLIGHT,
        report: worked::FEES_IN_FLIGHT_REPORT,
    },
    Row {
        changes: &[
            &[
                ("gas_price", "2"),
                ("action_receipt_send_remote", "30"),
                ("transfer_send_remote", "40"),
            ],
            &FEES,
        ],
        genesis: worked::GENESIS,
        blocks: worked::TRANSFER_TO_HERSELF,
        report: worked::FEES_AT_HOME_REPORT,
    },
    Row {
        changes: &[&FEES],
        genesis: worked::GENESIS,
        blocks: worked::GREATEST_TRANSFER,
        report: worked::OVERFLOW_REPORT,
    },
    Row {
        changes: &[&FEES],
        genesis: worked::PRICED_GENESIS,
        blocks: worked::PRICE_FALLS,
        report: worked::PRICE_FALLS_REPORT,
    },
    Row {
        changes: &[&FEES],
        genesis: worked::PRICED_GENESIS,
        blocks: worked::PRICE_RISES,
        report: worked::PRICE_RISES_REPORT,
    },
    Row {
        changes: &[&FEES],
        genesis: worked::GENESIS,
        blocks: sharded::TO_NOBODY,
        report: sharded::TO_NOBODY_REPORT,
    },
    Row {
        changes: &[&[("chunk_gas_limit", "1"), ("action_receipt_send_local", "1")]],
        genesis: worked::GENESIS,
        blocks: worked::TRANSFER_TO_HERSELF,
        report: sharded::LATE_REPORT,
    },
    Row {
        changes: &[&FEES],
        genesis: contracts::CALL_KEY_GENESIS,
        blocks: contracts::CALL_KEY_BLOCKS,
        report: contracts::CALL_KEY_REPORT,
    },
    Row {
        changes: &[&FEES],
        genesis: contracts::LOW_ALLOWANCE_GENESIS,
        blocks: contracts::CALL_KEY_BLOCKS,
        report: contracts::LOW_ALLOWANCE_REPORT,
    },
    Row {
        changes: &[&[("chunk_gas_limit", "1000")]],
        genesis: contracts::LATE_DATA_GENESIS,
        blocks: contracts::LATE_DATA_BLOCKS,
        report: contracts::LATE_DATA_REPORT,
    },
    Row {
        changes: &[&FEES],
        genesis: contracts::DROPPED_PROMISES_GENESIS,
        blocks: contracts::DROPPED_PROMISES_BLOCKS,
        report: contracts::DROPPED_PROMISES_REPORT,
    },
    Row {
        changes: &[&FEES],
        genesis: contracts::REFUND_TO_DELETED_GENESIS,
        blocks: contracts::REFUND_TO_DELETED_BLOCKS,
        report: contracts::REFUND_TO_DELETED_REPORT,
    },
    Row {
        changes: &[&[("reward_numerator", "30")], &FEES],
        genesis: contracts::REWARD_OF_DELETED_GENESIS,
        blocks: contracts::REWARD_OF_DELETED_BLOCKS,
        report: contracts::REWARD_OF_DELETED_REPORT,
    },
];

#[test]
fn runs_are_reported(rt: HostRuntime) -> Result<(), Fail> {
    for row in &ROWS {
        let config = config_text(rt.alloc(), row.changes)?;
        let ended = run_by(rt.alloc(), config.as_bytes(), row.genesis, row.blocks)?;
        assert_eq!(rt; ended.status, Status::Done);
        assert!(rt; ended.asked(rt.alloc(), ALL)?);
        assert_eq!(rt; ended.sink.bytes(), row.report.as_bytes());
    }
    Ok(())
}

/// Configurations with a faulty entry, with its kind and number.
const FAULTY: [(Changes, u32, u32); 4] = [
    (&[&[("gas_price", "-1")]], 3, 1),
    (&[&[("gas_price", "1.0")]], 3, 1),
    (&[&[("regular_op_cost", "0")]], 4, 4),
    (
        &[&[("regular_op_cost", "0"), ("delete_account_exec", "-1")]],
        4,
        4,
    ),
];

/// Whether a configuration's file is refused so, before other files are asked for.
fn is_refused(alloc: Global, config: &[u8], kind: u32, entry: u32) -> Result<bool, Fail> {
    let ended = run_by(alloc, config, worked::GENESIS, worked::TRANSFER)?;
    let refused = ended.status == Status::Config { kind, entry };
    Ok(refused && ended.wrote_nothing(alloc, "Some([\"C\"])")?)
}

#[test]
fn faulty_configurations_are_refused(rt: HostRuntime) -> Result<(), Fail> {
    assert!(rt; is_refused(rt.alloc(), b"[]", 1, 0)?);
    assert!(rt; is_refused(rt.alloc(), b"", 1, 0)?);
    assert!(rt; is_refused(rt.alloc(), b"{}", 2, 1)?);
    for (changes, kind, entry) in FAULTY {
        let config = config_text(rt.alloc(), changes)?;
        assert!(rt; is_refused(rt.alloc(), config.as_bytes(), kind, entry)?);
    }
    Ok(())
}

#[test]
fn configurations_have_a_greatest_length(rt: HostRuntime) -> Result<(), Fail> {
    let mut config = config_text(rt.alloc(), &[&FEES])?;
    for _ in config.as_bytes().len()..LIMIT {
        config.push_str(" ")?;
    }
    let ended = run_by(
        rt.alloc(),
        config.as_bytes(),
        worked::GENESIS,
        worked::TRANSFER,
    )?;
    assert_eq!(rt; ended.status, Status::Done);
    assert_eq!(rt; ended.sink.bytes(), worked::FEES_REPORT.as_bytes());
    config.push_str(" ")?;
    let ended = run_by(
        rt.alloc(),
        config.as_bytes(),
        worked::GENESIS,
        worked::TRANSFER,
    )?;
    assert_eq!(rt; ended.status, Status::Config { kind: 0, entry: 0 });
    Ok(())
}

#[test]
fn absent_configurations_are_read_faults(rt: HostRuntime) -> Result<(), Fail> {
    for name in ["C", "Free", "free ", "./free"] {
        let shelf = shelf_of(rt.alloc(), worked::GENESIS, worked::TRANSFER, &[])?;
        let ended = end_of(rt.alloc(), &["run", name, "G", "B"], shelf)?;
        assert_eq!(rt; ended.status, Status::ReadFault);
        let asked = format!(in rt.alloc(); "Some([\"{name}\"])")?;
        assert!(rt; ended.wrote_nothing(rt.alloc(), asked.as_str())?);
    }
    Ok(())
}

#[test]
fn a_file_called_free_is_not_read(rt: HostRuntime) -> Result<(), Fail> {
    let shelf = shelf_with(rt.alloc(), worked::GENESIS, worked::TRANSFER, "free", b"[]")?;
    let ended = end_of(rt.alloc(), &["run", "free", "G", "B"], shelf)?;
    assert_eq!(rt; ended.status, Status::Done);
    assert!(rt; ended.asked(rt.alloc(), "Some([\"G\", \"B\"])")?);
    assert_eq!(rt; ended.sink.bytes(), worked::ONE_TRANSFER_REPORT.as_bytes());
    Ok(())
}

/// One run that is refused, and the files that it asks for.
struct Refused {
    changes: Changes,
    genesis: &'static str,
    blocks: &'static str,
    status: Status,
    asked: &'static str,
}

/// What the shelf tells where the blocks weren't asked for.
const NO_BLOCKS: &str = "Some([\"C\", \"G\"])";

const PRICED: Changes = &[&[("storage_price", "1")]];

const REFUSED: [Refused; 3] = [
    Refused {
        changes: PRICED,
        genesis: "4e5247310000000001",
        blocks: worked::TRANSFER,
        status: Status::Genesis {
            kind: 1,
            a: 8,
            b: 0,
            c: 0,
        },
        asked: NO_BLOCKS,
    },
    Refused {
        changes: PRICED,
        genesis: worked::GENESIS,
        blocks: "4e52423100",
        status: Status::Blocks { kind: 1, a: 4 },
        asked: ALL,
    },
    // The configuration counts the usage.
    Refused {
        changes: &[&[("account_bytes", "99")]],
        genesis: worked::GENESIS,
        blocks: worked::TRANSFER,
        status: Status::Genesis {
            kind: 4,
            a: 0,
            b: 182,
            c: 181,
        },
        asked: NO_BLOCKS,
    },
];

#[test]
fn the_first_refusal_comes(rt: HostRuntime) -> Result<(), Fail> {
    for row in &REFUSED {
        let config = config_text(rt.alloc(), row.changes)?;
        let ended = run_by(rt.alloc(), config.as_bytes(), row.genesis, row.blocks)?;
        assert_eq!(rt; ended.status, row.status);
        assert!(rt; ended.wrote_nothing(rt.alloc(), row.asked)?);
    }
    Ok(())
}
