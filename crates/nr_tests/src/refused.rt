//! Runs that end with a refusal or a fault.

use crate::setting::{Ended, end_failing, end_of, shelf_of};
use crate::worked;
use nr_top::Status;
use std::alloc::Global;
use std::test::Fail;

/// How words over the files of one transfer end.
fn answer_to(alloc: Global, words: &[&str]) -> Result<Ended, Fail> {
    let shelf = shelf_of(alloc, worked::GENESIS, worked::TRANSFER, &[])?;
    end_of(alloc, words, shelf)
}

#[test]
fn words_of_no_command_are_usage(rt: HostRuntime) -> Result<(), Fail> {
    let rows: [&[&str]; 28] = [
        &[],
        &["run", "free", "G"],
        &["run", "free", "G", "B", "S"],
        &["replay", "free", "G", "B"],
        &["check", "free", "G", "B"],
        &["check", "free", "G", "B", "-"],
        &["run", "free", "-x", "B"],
        &["run", "-x", "G", "B"],
        &["run", "free", "G", ""],
        &["-x"],
        &["--help"],
        &["help"],
        &["gen", "7", "4"],
        &["gen", "07", "4", "200"],
        &["gen", "+7", "4", "200"],
        &["gen", "7", "0", "200"],
        &["gen", "7", "17", "200"],
        &["gen", "7", "4", "0"],
        &["gen", "7", "4", "257"],
        &["gen", "18446744073709551616", "4", "200"],
        &["roots", "free", "G"],
        &["roots", "free", "G", "B", "P"],
        &["prove", "free", "G", "B", "1", "0", "receipt"],
        &["prove", "free", "G", "B", "01", "0", "receipt", "0"],
        &["prove", "free", "G", "B", "1", "4294967296", "receipt", "0"],
        &["prove", "free", "G", "B", "1", "0", "receipts", "0"],
        &["verify", "00", "P"],
        &["verify", "-", "P"],
    ];
    for row in rows {
        let ended = answer_to(rt.alloc(), row)?;
        assert_eq!(rt; ended.status, Status::Usage);
        assert!(rt; ended.wrote_nothing(rt.alloc(), "None")?);
    }
    Ok(())
}

#[test]
fn failed_loads_are_read_faults(rt: HostRuntime) -> Result<(), Fail> {
    for (call, asked) in [(1, "Some([\"G\"])"), (2, "Some([\"G\", \"B\"])")] {
        let shelf = shelf_of(rt.alloc(), worked::GENESIS, worked::TRANSFER, &[call])?;
        let ended = end_of(rt.alloc(), &["run", "free", "G", "B"], shelf)?;
        assert_eq!(rt; ended.status, Status::ReadFault);
        assert!(rt; ended.wrote_nothing(rt.alloc(), asked)?);
    }
    Ok(())
}

#[test]
fn failed_writes_leave_a_front(rt: HostRuntime) -> Result<(), Fail> {
    let shelf = shelf_of(rt.alloc(), worked::GENESIS, worked::TRANSFER, &[])?;
    let ended = end_failing(rt.alloc(), &["run", "free", "G", "B"], shelf, &[3])?;
    assert_eq!(rt; ended.status, Status::WriteFault);
    assert!(rt; ended.asked(rt.alloc(), "Some([\"G\", \"B\"])")?);
    assert_eq!(rt; ended.sink.bytes(), b"chunk 1 0 fe170e308d".as_slice());
    Ok(())
}
