//! Runs that end with a report.

use crate::setting::run;
use crate::{contracts, resharded, sharded, worked};
use nr_top::Status;
use std::test::Fail;

/// One run with its report.
struct Row {
    genesis: &'static str,
    blocks: &'static str,
    report: &'static str,
}

const ROWS: [Row; 18] = [
    Row {
        genesis: worked::GENESIS,
        blocks: worked::TRANSFER,
        report: worked::ONE_TRANSFER_REPORT,
    },
    Row {
        genesis: worked::NO_GENESIS,
        blocks: worked::NO_BLOCKS,
        report: worked::EMPTY_REPORT,
    },
    Row {
        genesis: worked::NO_GENESIS,
        blocks: worked::ONE_BLOCK,
        report: worked::ONE_EMPTY_CHUNK_REPORT,
    },
    Row {
        genesis: worked::GENESIS_NONCE_7,
        blocks: worked::TWO_TRANSFERS,
        report: worked::NONCES_REPORT,
    },
    Row {
        genesis: worked::GENESIS,
        blocks: worked::TRANSFER_OF_101,
        report: worked::BALANCE_REPORT,
    },
    Row {
        genesis: worked::GENESIS,
        blocks: worked::TRANSFER_TO_HERSELF,
        report: worked::TO_HERSELF_REPORT,
    },
    Row {
        genesis: worked::GENESIS,
        blocks: worked::GREATEST_TRANSFER,
        report: worked::GREATEST_TRANSFER_REPORT,
    },
    Row {
        genesis: worked::GENESIS_OF_ALL_KINDS,
        blocks: worked::TRANSFER,
        report: worked::ALL_KINDS_REPORT,
    },
    Row {
        genesis: worked::GREATEST_SUPPLY,
        blocks: worked::ONE_BLOCK,
        report: worked::GREATEST_SUPPLY_REPORT,
    },
    Row {
        genesis: sharded::MISSING_GENESIS,
        blocks: sharded::MISSING_BLOCKS,
        report: sharded::MISSING_REPORT,
    },
    Row {
        genesis: resharded::GENESIS,
        blocks: resharded::BLOCKS,
        report: resharded::REPORT,
    },
    Row {
        genesis: sharded::BY_BYTES_GENESIS,
        blocks: sharded::BY_BYTES_BLOCKS,
        report: sharded::BY_BYTES_REPORT,
    },
    Row {
        genesis: sharded::SIXTEEN_GENESIS,
        blocks: sharded::SIXTEEN_BLOCKS,
        report: sharded::SIXTEEN_REPORT,
    },
    Row {
        genesis: contracts::ENDLESS_LOOP_GENESIS,
        blocks: contracts::ENDLESS_LOOP_BLOCKS,
        report: contracts::ENDLESS_LOOP_REPORT,
    },
    Row {
        genesis: contracts::FLOAT_GENESIS,
        blocks: contracts::ENDLESS_LOOP_BLOCKS,
        report: contracts::FLOAT_REPORT,
    },
    Row {
        genesis: contracts::STORAGE_GENESIS,
        blocks: contracts::STORAGE_BLOCKS,
        report: contracts::STORAGE_REPORT,
    },
    Row {
        genesis: contracts::ABSENT_CALLED_GENESIS,
        blocks: contracts::ABSENT_CALLED_BLOCKS,
        report: contracts::ABSENT_CALLED_REPORT,
    },
    Row {
        genesis: contracts::CALL_GENESIS,
        blocks: contracts::CALL_BLOCKS,
        report: contracts::CALL_REPORT,
    },
];

#[test]
fn runs_are_reported(rt: HostRuntime) -> Result<(), Fail> {
    for row in &ROWS {
        let ended = run(rt.alloc(), row.genesis, row.blocks)?;
        assert_eq!(rt; ended.status, Status::Done);
        assert!(rt; ended.asked(rt.alloc(), "Some([\"G\", \"B\"])")?);
        assert_eq!(rt; ended.sink.bytes(), row.report.as_bytes());
    }
    Ok(())
}
