//! Each fault of a file and of a part.

use crate::judging::{judged, unread};
use crate::table::{CUT, FIRST, JUDGED, ROOT, SECOND};
use nr_ids::Hash32;
use std::test::Fail;

#[test]
fn a_file_that_is_cut_is_told_by_its_first_faulty_field(rt: HostRuntime) -> Result<(), Fail> {
    let alloc = rt.alloc();
    let mut file = hex::decode(alloc, FIRST)?;
    for (length, place) in CUT {
        assert!(rt; length <= file.len());
        assert_eq!(rt;
            unread(alloc, &file[..length]),
            Some(place),
            "{length} bytes"
        );
    }
    assert_eq!(rt; unread(alloc, &file), None);
    let end = file.len() as u64;
    file.push(0)?;
    assert_eq!(rt; unread(alloc, &file), Some(end));
    assert!(rt; 3 < file.len());
    file[3] = b'2';
    assert_eq!(rt; unread(alloc, &file), Some(0));
    Ok(())
}

#[test]
fn a_part_that_is_none_is_told_by_its_first_fault(rt: HostRuntime) -> Result<(), Fail> {
    let alloc = rt.alloc();
    for i in 0..JUDGED.len() {
        let (file, kind, detail) = JUDGED[i];
        let file = hex::decode(alloc, file)?;
        assert_eq!(rt; judged(alloc, &file, None), (kind, detail), "row {i}");
    }
    Ok(())
}

#[test]
fn a_part_of_another_root_is_told_by_its_own(rt: HostRuntime) -> Result<(), Fail> {
    let alloc = rt.alloc();
    let mut other = ROOT;
    other[0] ^= 1;
    for file in [FIRST, SECOND] {
        let file = hex::decode(alloc, file)?;
        assert_eq!(rt;
            judged(alloc, &file, Some(&Hash32(other))),
            (3, 0xad83_9f75)
        );
        assert_eq!(rt; judged(alloc, &file, Some(&Hash32(ROOT))), (0, 0));
    }
    Ok(())
}
