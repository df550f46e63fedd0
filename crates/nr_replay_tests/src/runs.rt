//! Runs from JSON texts.

use crate::chains::{
    GENESIS, OTHER_GENESIS, RESHARDED, STEPS, STEPS_LINES, TRANSFER, TRANSFER_REPORT,
};
use crate::setting::ended_by;
use std::test::Fail;

#[test]
fn a_transfer_is_replayed(rt: HostRuntime) -> Result<(), Fail> {
    let alloc = rt.alloc();
    let files: [(&str, &[u8]); 2] = [("G", GENESIS.as_bytes()), ("B", TRANSFER.as_bytes())];
    let end = ended_by(alloc, &["replay", "free", "G", "B"], &files)?;
    assert_eq!(rt; end.status.exit_status(), 0);
    assert!(rt; end.asked(alloc, "Some([\"G\", \"B\"])")?);
    assert_eq!(rt; end.written(), TRANSFER_REPORT.as_bytes());
    Ok(())
}

#[test]
fn a_schedule_drives_a_run(rt: HostRuntime) -> Result<(), Fail> {
    let alloc = rt.alloc();
    let files: [(&str, &[u8]); 3] = [
        ("G", OTHER_GENESIS.as_bytes()),
        ("B", RESHARDED.as_bytes()),
        ("S", STEPS.as_bytes()),
    ];
    let end = ended_by(alloc, &["check", "free", "G", "B", "S"], &files)?;
    assert_eq!(rt; end.status.exit_status(), 0);
    assert!(rt; end.asked(alloc, "Some([\"G\", \"B\", \"S\"])")?);
    assert_eq!(rt; end.written(), STEPS_LINES.as_bytes());
    Ok(())
}

#[test]
fn other_words_are_those_of_the_files(rt: HostRuntime) -> Result<(), Fail> {
    let alloc = rt.alloc();
    let version = ended_by(alloc, &["version"], &[])?;
    assert_eq!(rt; version.status.exit_status(), 0);
    assert_eq!(rt; version.written(), "near_files 0.1.0\n".as_bytes());
    let files: [(&str, &[u8]); 1] = [("B", b"{\"blocks\": []}")];
    let made = ended_by(alloc, &["blocks", "B"], &files)?;
    assert_eq!(rt; made.status.exit_status(), 0);
    assert_eq!(rt; made.written(), "NRB1\0\0\0\0".as_bytes());
    let words: [&[&str]; 5] = [
        &["replay"],
        &["replay", "free", "G"],
        &["replay", "free", "G", "B", "S"],
        &["check", "free", "G", "B"],
        &["replay", "free", "-G", "B"],
    ];
    for these in words {
        let end = ended_by(alloc, these, &files)?;
        assert_eq!(rt; end.status.exit_status(), 1);
        assert!(rt; end.written().is_empty());
        assert!(rt; end.asked(alloc, "None")?);
    }
    Ok(())
}
