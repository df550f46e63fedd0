//! Boundaries between shards, and how layouts are read.

use crate::spelling::id;
use nr_bytes::Reader;
use nr_ids::ShardId;
use nr_layout::Layout;
use nr_records::{RecordFault, Spelled, decode, encode};
use std::alloc::Global;
use std::process::Abort;
use std::test::Fail;

/// Three shards.
const THREE: &[u8] = b"\x02\0\0\0\x02\0\0\0hh\x02\0\0\0pp";

/// Fifteen boundaries, `b0` to `be`.
const FIFTEEN: &[u8] = b"\
    \x0f\0\0\0\
    \x02\0\0\0b0\x02\0\0\0b1\x02\0\0\0b2\x02\0\0\0b3\x02\0\0\0b4\
    \x02\0\0\0b5\x02\0\0\0b6\x02\0\0\0b7\x02\0\0\0b8\x02\0\0\0b9\
    \x02\0\0\0ba\x02\0\0\0bb\x02\0\0\0bc\x02\0\0\0bd\x02\0\0\0be\
";

#[test]
fn a_boundary_is_the_first_id_of_its_shard(rt: HostRuntime) -> Result<(), Fail> {
    let alloc = rt.alloc();
    let layout = decode::<Layout>(alloc, b"\x01\0\0\0\x02\0\0\0mm")?;
    assert_eq!(rt; layout.shards(), 2);
    assert_eq!(rt; layout.shard_of(&id(alloc, "ml")?), ShardId(0));
    assert_eq!(rt; layout.shard_of(&id(alloc, "mm")?), ShardId(1));
    Ok(())
}

#[test]
fn there_are_at_most_sixteen_shards(rt: HostRuntime) -> Result<(), Fail> {
    let alloc = rt.alloc();
    let layout = decode::<Layout>(alloc, FIFTEEN)?;
    assert_eq!(rt; layout.shards(), 16);
    assert_eq!(rt; layout.boundaries().len(), 15);
    assert_eq!(rt; layout.shard_of(&id(alloc, "zz")?), ShardId(15));
    assert_eq!(rt; decode::<Layout>(alloc, b"\0\0\0\0")?.shards(), 1);
    Ok(())
}

#[test]
fn a_layout_is_written_as_it_is_read(rt: HostRuntime) -> Result<(), Fail> {
    let alloc = rt.alloc();
    for bytes in [THREE, FIFTEEN] {
        let layout = decode::<Layout>(alloc, bytes)?;
        assert_eq!(rt; encode(alloc, &layout)?.inner(), bytes);
        assert_eq!(rt; layout.duplicate(alloc)?, layout);
    }
    Ok(())
}

/// Reads a layout behind four bytes; after a refusal the reader stands where it stood.
fn refusal(rt: &impl Abort, alloc: Global, bytes: &[u8]) -> Result<Option<RecordFault>, Fail> {
    let mut reader = Reader::new(bytes);
    reader.u32()?;
    match Layout::read(alloc, &mut reader) {
        Ok(_) => Ok(None),
        Err(fault) => {
            assert_eq!(rt; reader.at(), 4);
            Ok(Some(fault))
        }
    }
}

#[test]
fn the_first_fault_is_named(rt: HostRuntime) -> Result<(), Fail> {
    let cases: [(&[u8], RecordFault); 9] = [
        (b"NRG1\x10\0\0\0", RecordFault::TooManyBoundaries { at: 4 }),
        (
            b"NRG1\x10\0\0\0\x02\0\0\0bb\x02\0\0\0aa",
            RecordFault::TooManyBoundaries { at: 4 },
        ),
        (
            b"NRG1\x02\0\0\0\x02\0\0\0bb\x02\0\0\0bb",
            RecordFault::BoundaryOrder { at: 14 },
        ),
        (
            b"NRG1\x03\0\0\0\x02\0\0\0aa\x02\0\0\0cc\x02\0\0\0bb",
            RecordFault::BoundaryOrder { at: 20 },
        ),
        (
            b"NRG1\x03\0\0\0\x02\0\0\0bb\x02\0\0\0aa\x02\0\0\0B!",
            RecordFault::BoundaryOrder { at: 14 },
        ),
        (
            b"NRG1\x03\0\0\0\x02\0\0\0bb\x02\0\0\0A!\x02\0\0\0aa",
            RecordFault::BadAccountId { at: 14 },
        ),
        (
            b"NRG1\x01\0\0\0\x02\0\0\0a\xff",
            RecordFault::BadUtf8 { at: 8 },
        ),
        (
            b"NRG1\x02\0\0\0\x02\0\0\0bb\x02\0\0\0a",
            RecordFault::Short { at: 14 },
        ),
        (b"NRG1\x01\0\0", RecordFault::Short { at: 4 }),
    ];
    for (bytes, want) in cases {
        assert_eq!(rt; refusal(&rt, rt.alloc(), bytes)?, Some(want), "{bytes:?}");
    }
    assert_eq!(rt; refusal(&rt, rt.alloc(), b"NRG1\0\0\0\0")?, None);
    Ok(())
}
