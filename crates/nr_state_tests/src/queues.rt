//! Entries of a delayed queue, and of none.

use crate::entries::{ROWS, Row, entries_of};
use nr_worlds::{WorldFault, check_queue};
use std::alloc::Global;
use std::test::Fail;

/// The first bytes of the ids of the delayed receipts, or the fault.
fn ids(alloc: Global, rows: &[Row]) -> Result<Result<Vec<u8>, WorldFault>, Fail> {
    let entries = entries_of(alloc, rows)?;
    let receipts = match check_queue(alloc, &entries) {
        Ok(receipts) => receipts,
        Err(fault) => return Ok(Err(fault)),
    };
    let mut ids = Vec::new(alloc);
    for receipt in receipts.inner() {
        ids.push(receipt.receipt_id.0[0])?;
    }
    Ok(Ok(ids))
}

#[test]
fn a_queue_has_its_receipts_in_order(rt: HostRuntime) -> Result<(), Fail> {
    let alloc = rt.alloc();
    let found = ids(alloc, &ROWS[9..12])?;
    assert_eq!(rt; found?.as_slice(), b"de".as_slice());
    let nothing = ids(alloc, &[])?;
    assert_eq!(rt; nothing?.len(), 0);
    Ok(())
}

#[test]
fn a_queue_that_was_served_is_empty(rt: HostRuntime) -> Result<(), Fail> {
    let alloc = rt.alloc();
    let row: Row = (b"\x07", b"\x03\0\0\0\0\0\0\0\x03\0\0\0\0\0\0\0");
    let found = ids(alloc, &[row])?;
    assert_eq!(rt; found?.len(), 0);
    Ok(())
}

#[test]
fn other_entries_are_no_queue(rt: HostRuntime) -> Result<(), Fail> {
    let swapped = [ROWS[10], ROWS[9]];
    let none: [Row; 1] = [(b"\x07", b"\0\0\0\0\0\0\0\0\0\0\0\0\0\0\0\0")];
    let long: [Row; 1] = [(b"\x07", b"\0\0\0\0\0\0\0\0\xff\xff\xff\xff\xff\xff\xff\xff")];
    let others: [&[Row]; 7] = [
        &ROWS,
        &ROWS[9..13],
        &ROWS[9..11],
        &ROWS[10..12],
        &swapped,
        &none,
        &long,
    ];
    for (place, rows) in others.iter().enumerate() {
        let found = ids(rt.alloc(), *rows)?.err();
        assert_eq!(rt; found, Some(WorldFault::NotWorld), "{place}");
    }
    Ok(())
}
