//! Parts of a state: how they are cut, checked and joined.

use crate::four_parts::{CHANGED, CUT, FOUR, OF_ANOTHER, ROOT};
use crate::setting::{Ended, end_of, shelf_of};
use crate::worked;
use nr_bytes::MemoryShelf;
use nr_top::Status;
use std::alloc::Global;
use std::test::Fail;

/// A root of no state.
const OTHER_ROOT: &str = "0707070707070707070707070707070707070707070707070707070707070707";

/// A block without a chunk.
const MISSING_CHUNK: &str = "4e52423101000000010000000000000000000000000000000100000000";

/// A shelf with named files, given in hexadecimal.
fn shelf_of_parts(alloc: Global, files: &[(&str, &str)]) -> Result<MemoryShelf, Fail> {
    let mut held = Vec::new(alloc);
    for (name, digits) in files {
        held.push((String::from_str(alloc, name)?, hex::decode(alloc, digits)?))?;
    }
    Ok(MemoryShelf::new(held, Vec::new(alloc)))
}

/// How the joining of four parts ends over these files.
fn joined_of(alloc: Global, root: &str, files: &[(&str, &str)]) -> Result<Ended, Fail> {
    let shelf = shelf_of_parts(alloc, files)?;
    end_of(alloc, &["joinparts", root, "4", "p"], shelf)
}

/// The same over four files.
fn joined(alloc: Global, root: &str, files: [&str; 4]) -> Result<Ended, Fail> {
    let [first, second, third, last] = files;
    joined_of(
        alloc,
        root,
        &[("p0", first), ("p1", second), ("p2", third), ("p3", last)],
    )
}

/// How the check of one file ends.
fn checked(alloc: Global, root: &str, file: &str) -> Result<Ended, Fail> {
    let shelf = shelf_of_parts(alloc, &[("p0", file)])?;
    end_of(alloc, &["checkpart", root, "p0"], shelf)
}

/// How a part of the state of a run is cut, by the words for the chunk and the part.
fn cut(alloc: Global, blocks: &str, part: [&str; 4]) -> Result<Ended, Fail> {
    let [height, shard, count, number] = part;
    let shelf = shelf_of(alloc, worked::GENESIS, blocks, &[])?;
    let words = ["part", "free", "G", "B", height, shard, count, number];
    end_of(alloc, &words, shelf)
}

#[test]
fn a_state_is_cut_into_four_parts(rt: HostRuntime) -> Result<(), Fail> {
    let [first, second, third, last] = FOUR;
    let rows = [("0", first), ("1", second), ("2", third), ("3", last)];
    for (number, part) in rows {
        let ended = cut(rt.alloc(), worked::TRANSFER, ["2", "0", "4", number])?;
        assert_eq!(rt; ended.status, Status::Done);
        assert!(rt; ended.asked(rt.alloc(), "Some([\"G\", \"B\"])")?);
        let due = hex::decode(rt.alloc(), part)?;
        assert_eq!(rt; ended.sink.bytes(), due.as_slice());
    }
    Ok(())
}

#[test]
fn there_is_no_part_behind_no_chunk(rt: HostRuntime) -> Result<(), Fail> {
    let rows = [
        (worked::TRANSFER, ["0", "0", "4", "0"]),
        (worked::TRANSFER, ["3", "0", "4", "0"]),
        (worked::TRANSFER, ["18446744073709551615", "0", "4", "0"]),
        (worked::TRANSFER, ["2", "1", "4", "0"]),
        (worked::TRANSFER, ["2", "4294967295", "4", "0"]),
        (MISSING_CHUNK, ["1", "0", "1", "0"]),
    ];
    for (blocks, part) in rows {
        let ended = cut(rt.alloc(), blocks, part)?;
        assert_eq!(rt; ended.status, Status::NoItem { count: 0 });
        assert!(rt; ended.wrote_nothing(rt.alloc(), "Some([\"G\", \"B\"])")?);
    }
    Ok(())
}

#[test]
fn each_part_is_checked_by_itself(rt: HostRuntime) -> Result<(), Fail> {
    let [first, second, third, last] = FOUR;
    let rows = [
        (first, "part 0 4 entries 0\n"),
        (second, "part 1 4 entries 1\n"),
        (third, "part 2 4 entries 2\n"),
        (last, "part 3 4 entries 0\n"),
    ];
    for (file, line) in rows {
        let ended = checked(rt.alloc(), ROOT, file)?;
        assert_eq!(rt; ended.status, Status::Done);
        assert!(rt; ended.asked(rt.alloc(), "Some([\"p0\"])")?);
        assert_eq!(rt; ended.sink.bytes(), line.as_bytes());
    }
    Ok(())
}

#[test]
fn a_part_that_is_none_is_refused(rt: HostRuntime) -> Result<(), Fail> {
    // the file; the kind and its number
    let rows = [
        (ROOT, "4e5250", 1, 0),
        (ROOT, CUT, 1, 424),
        (ROOT, CHANGED, 6, 0),
        (OTHER_ROOT, CHANGED, 3, 0),
    ];
    for (root, file, kind, a) in rows {
        let ended = checked(rt.alloc(), root, file)?;
        assert_eq!(rt; ended.status, Status::Parts { kind, a });
        assert!(rt; ended.wrote_nothing(rt.alloc(), "Some([\"p0\"])")?);
    }
    Ok(())
}

#[test]
fn all_parts_are_joined(rt: HostRuntime) -> Result<(), Fail> {
    let line = "root 92320917050449af130cdb3b2e0fd713aae8154575253e0513b30f32d6d5fa43 entries 3\n";
    let ended = joined(rt.alloc(), ROOT, FOUR)?;
    assert_eq!(rt; ended.status, Status::Done);
    assert!(rt; ended.asked(rt.alloc(), "Some([\"p0\", \"p1\", \"p2\", \"p3\"])")?);
    assert_eq!(rt; ended.sink.bytes(), line.as_bytes());
    Ok(())
}

#[test]
fn parts_that_do_not_join_are_refused(rt: HostRuntime) -> Result<(), Fail> {
    let [first, second, third, last] = FOUR;
    // the root and the files; the kind and its number
    let rows = [
        (ROOT, [first, third, second, last], 7, 1),
        (ROOT, [second, second, third, last], 7, 0),
        (ROOT, [first, CHANGED, third, last], 6, 0),
        (ROOT, [first, second, OF_ANOTHER, last], 3, 2),
        (OTHER_ROOT, [first, CHANGED, third, last], 3, 0),
    ];
    for (root, files, kind, a) in rows {
        let ended = joined(rt.alloc(), root, files)?;
        assert_eq!(rt; ended.status, Status::Parts { kind, a });
        assert!(rt; ended.wrote_nothing(rt.alloc(), "Some([\"p0\", \"p1\", \"p2\", \"p3\"])")?);
    }
    Ok(())
}

#[test]
fn a_file_of_parts_is_refused_at_its_turn(rt: HostRuntime) -> Result<(), Fail> {
    let [first, second, _, _] = FOUR;
    let ended = joined_of(rt.alloc(), ROOT, &[("p0", second), ("p1", CUT)])?;
    assert_eq!(rt; ended.status, Status::Parts { kind: 1, a: 424 });
    assert!(rt; ended.wrote_nothing(rt.alloc(), "Some([\"p0\", \"p1\"])")?);
    let ended = joined_of(rt.alloc(), ROOT, &[("p0", second), ("p1", first)])?;
    assert_eq!(rt; ended.status, Status::ReadFault);
    assert!(rt; ended.wrote_nothing(rt.alloc(), "Some([\"p0\", \"p1\", \"p2\"])")?);
    Ok(())
}
