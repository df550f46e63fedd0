//! Parts that are cut, accepted, read back and joined, by the values of an independent program.

use crate::judging::{is_read_back, told};
use crate::states::{files_of, forty, part_of, parts_of, three};
use crate::table::{FILES, FIRST, FORTY, ROOT, SECOND, SHARES};
use nr_bytes::List;
use nr_columns::Entry;
use nr_ids::Hash32;
use nr_parts::{check_part, join_parts};
use nr_triedef::value_hash;
use std::alloc::{AllocError, Global};
use std::test::Fail;

#[test]
fn parts_of_three_entries_have_these_files(rt: HostRuntime) -> Result<(), Fail> {
    let alloc = rt.alloc();
    let entries = three(alloc)?;
    for (count, number, hash) in FILES {
        let part = part_of(alloc, &entries, count, number)?.ok_or(AllocError)?;
        assert_eq!(rt; part.root.0, ROOT);
        let file = files_of(alloc, &[part])?;
        let found = value_hash(file.inner());
        assert_eq!(rt;
            hex::encode(alloc, found.0)?.as_str(),
            hash,
            "{number} of {count}"
        );
    }
    Ok(())
}

#[test]
fn two_parts_are_these_bytes(rt: HostRuntime) -> Result<(), Fail> {
    let alloc = rt.alloc();
    let parts = parts_of(alloc, &three(alloc)?, 2)?;
    let files = files_of(alloc, parts.inner())?;
    let mut both = hex::decode(alloc, FIRST)?;
    both.extend_from_slice(&hex::decode(alloc, SECOND)?)?;
    assert_eq!(rt; files.inner(), both.as_slice());
    Ok(())
}

#[test]
fn parts_of_forty_entries_have_these_files(rt: HostRuntime) -> Result<(), Fail> {
    let alloc = rt.alloc();
    let entries = forty(alloc)?;
    for (count, hash) in FORTY {
        let parts = parts_of(alloc, &entries, count)?;
        let files = files_of(alloc, parts.inner())?;
        let found = value_hash(files.inner());
        assert_eq!(rt; hex::encode(alloc, found.0)?.as_str(), hash, "{count}");
    }
    let parts = parts_of(alloc, &entries, 3)?;
    let mut shares = Vec::new(alloc);
    for part in parts.inner() {
        shares.push(part.entries.inner().len())?;
    }
    assert_eq!(rt; shares.as_slice(), SHARES.as_slice());
    Ok(())
}

// Whether each of so many parts is accepted and read back, and all are joined to the entries.
fn joins(alloc: Global, entries: &List<Entry>, count: u32) -> Result<bool, AllocError> {
    let parts = parts_of(alloc, entries, count)?;
    let mut root = Hash32([0; 32]);
    for part in parts.inner() {
        root = part.root;
        if check_part(alloc, &root, part).is_err() || !is_read_back(alloc, part)? {
            return Ok(false);
        }
    }
    match join_parts(alloc, &root, &parts) {
        Ok(all) => Ok(all.inner() == entries.inner()),
        Err(_) => Ok(false),
    }
}

#[test]
fn all_parts_are_accepted_and_joined(rt: HostRuntime) -> Result<(), Fail> {
    let alloc = rt.alloc();
    for count in [1, 2, 3, 4, 7, 50] {
        assert!(rt; joins(alloc, &three(alloc)?, count)?, "three in {count}");
        assert!(rt; joins(alloc, &forty(alloc)?, count)?, "forty in {count}");
        let none = List::of(Vec::new(alloc));
        assert!(rt; joins(alloc, &none, count)?, "none in {count}");
    }
    Ok(())
}

#[test]
fn parts_out_of_their_places_are_told(rt: HostRuntime) -> Result<(), Fail> {
    let alloc = rt.alloc();
    let entries = three(alloc)?;
    let root = Hash32(ROOT);
    let mut places = Vec::new(alloc);
    for (first, second) in [((2, 1), (2, 0)), ((2, 0), (3, 1)), ((2, 0), (2, 0))] {
        let mut parts = Vec::new(alloc);
        parts.push(part_of(alloc, &entries, first.0, first.1)?.ok_or(AllocError)?)?;
        parts.push(part_of(alloc, &entries, second.0, second.1)?.ok_or(AllocError)?)?;
        match join_parts(alloc, &root, &List::of(parts)) {
            Ok(_) => places.push((0, 0))?,
            Err(fault) => places.push(told(&fault))?,
        }
    }
    assert_eq!(rt; places.as_slice(), [(7, 0), (7, 1), (7, 1)].as_slice());
    Ok(())
}

#[test]
fn no_parts_have_the_root_of_no_entries(rt: HostRuntime) -> Result<(), Fail> {
    let alloc = rt.alloc();
    let none = List::of(Vec::new(alloc));
    let found = join_parts(alloc, &Hash32(ROOT), &none).map_err(|fault| told(&fault));
    assert_eq!(rt; found.err(), Some((8, 0)));
    let empty = join_parts(alloc, &Hash32([0; 32]), &none).map(|all| all.inner().len());
    assert_eq!(rt; empty.ok(), Some(0));
    Ok(())
}
