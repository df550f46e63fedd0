//! Walks by the values of an independent program.

use crate::script::replayed;
use crate::{faults, maps, outside};
use std::alloc::{AllocError, Global};
use std::test::Fail;

#[test]
fn walks_and_changes_over_maps(rt: HostRuntime) -> Result<(), Fail> {
    let tables = [
        maps::EMPTY,
        maps::ONE,
        maps::TWO,
        maps::INSIDE,
        maps::VALUE,
        maps::OWNED,
        maps::TWELVE,
        maps::QUEUE,
        maps::BESIDE,
    ];
    for table in tables {
        assert_eq!(rt; replayed(rt.alloc(), table)?.as_str(), table);
    }
    Ok(())
}

#[test]
fn faults_are_named_with_their_hash(rt: HostRuntime) -> Result<(), Fail> {
    for table in [faults::NODES, faults::ORDER] {
        assert_eq!(rt; replayed(rt.alloc(), table)?.as_str(), table);
    }
    Ok(())
}

#[test]
fn lists_of_chunks_give_their_entries(rt: HostRuntime) -> Result<(), Fail> {
    for table in [outside::WHOLE, outside::FAULTY] {
        assert_eq!(rt; replayed(rt.alloc(), table)?.as_str(), table);
    }
    Ok(())
}

/// A table, and behind it a walk for one account among three thousand of which there is nothing.
fn crowded(alloc: Global) -> Result<String, AllocError> {
    let mut table = String::from_str(alloc, maps::TWELVE)?;
    table.push_str("walk ab")?;
    for number in 0..3000_u32 {
        table.push_str(&format!(in alloc; " z{number}")?)?;
    }
    table.push_str("\n")?;
    table.push_str(maps::FOUND)?;
    Ok(table)
}

#[test]
fn a_crowd_of_accounts_finds_what_one_does(rt: HostRuntime) -> Result<(), Fail> {
    let table = crowded(rt.alloc())?;
    assert_eq!(rt;
        replayed(rt.alloc(), table.as_str())?.as_str(),
        table.as_str()
    );
    Ok(())
}
