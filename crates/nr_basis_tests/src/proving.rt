//! Roots and proofs by the values of an independent program.

use crate::proof_chunks::{late, mixed};
use crate::proof_judging::{Passed, path_length, texts, tried};
use crate::proof_texts::{OUTCOMES, RECEIPTS};
use nr_outproof::{ProofKind, chunk_root};
use nr_records::ChunkResult;
use std::alloc::{AllocError, Global};
use std::test::Fail;

fn root_of(alloc: Global, chunk: &ChunkResult, kind: ProofKind) -> Result<String, AllocError> {
    let root = chunk_root(alloc, chunk, kind)?;
    hex::encode(alloc, root.0)
}

#[test]
fn every_kind_of_line_is_in_a_root(rt: HostRuntime) -> Result<(), Fail> {
    let chunk = mixed(rt.alloc())?;
    let outcomes = root_of(rt.alloc(), &chunk, ProofKind::Outcome)?;
    let receipts = root_of(rt.alloc(), &chunk, ProofKind::Receipt)?;
    assert_eq!(rt;
        outcomes.as_str(),
        "00e37d13d45509f1730d5e9cad39d46623ee8a4508656c0c8a47f03a60888844"
    );
    assert_eq!(rt;
        receipts.as_str(),
        "5e3189f15aaacbcc9846440046100126e9bbe2f76783026a97707e59d9b47b84"
    );
    Ok(())
}

#[test]
fn proofs_of_every_kind_of_line_have_their_texts(rt: HostRuntime) -> Result<(), Fail> {
    let chunk = mixed(rt.alloc())?;
    let outcomes = texts(rt.alloc(), &chunk, ProofKind::Outcome)?;
    let receipts = texts(rt.alloc(), &chunk, ProofKind::Receipt)?;
    assert_eq!(rt; outcomes.inner(), OUTCOMES);
    assert_eq!(rt; receipts.inner(), RECEIPTS);
    Ok(())
}

fn late_root(alloc: Global, count: u8, kind: ProofKind) -> Result<String, AllocError> {
    let chunk = late(alloc, count)?;
    root_of(alloc, &chunk, kind)
}

#[test]
fn items_have_roots_by_their_number(rt: HostRuntime) -> Result<(), Fail> {
    let cases = [
        (
            0,
            "2c74c509fb52375ef8a9d86d995246ce2ed14d833628b3b786b0a401ba8b5f79",
        ),
        (
            1,
            "b6978feaa8fc04759ae5ad069405ae2bb8e2a77df86bbd80a17e28478f7ef6aa",
        ),
        (
            2,
            "d13307b5618d2289164d2e913a7e4505061687713872e30ce940e1d0cc67458b",
        ),
        (
            3,
            "cf28c8a81ff8a4634b2403bd03b9f0bab0da94c37beb3d55afd0dc6774f78a49",
        ),
        (
            5,
            "341447c94634fa608943a575244ac9a34def0500b351a08c0b1ca2f568c38a35",
        ),
        (
            8,
            "e44016a5f7f45330dc8592d74ca09d677a3ab08a142db05f50547fd4f9132261",
        ),
    ];
    for (count, want) in cases {
        let root = late_root(rt.alloc(), count, ProofKind::Outcome)?;
        assert_eq!(rt; root.as_str(), want, "{count} items");
    }
    let none = late_root(rt.alloc(), 5, ProofKind::Receipt)?;
    assert_eq!(rt;
        none.as_str(),
        "3edbf7bb77f3b3596c3f98d3af40b6154f476fcc84f2f94d500f5d23f40626ae"
    );
    Ok(())
}

#[test]
fn the_last_of_five_has_a_short_path(rt: HostRuntime) -> Result<(), Fail> {
    let chunk = late(rt.alloc(), 5)?;
    let cases = [
        (0, Some(3)),
        (1, Some(3)),
        (2, Some(3)),
        (3, Some(3)),
        (4, Some(1)),
        (5, None),
        (u64::MAX, None),
    ];
    for (place, want) in cases {
        let length = path_length(rt.alloc(), &chunk, place)?;
        assert_eq!(rt; length, want, "place {place}");
    }
    Ok(())
}

fn all(count: u64) -> Passed {
    Passed {
        made: count,
        explained: count,
        read_back: count,
    }
}

#[test]
fn proofs_are_accepted_and_read_back(rt: HostRuntime) -> Result<(), Fail> {
    let chunk = mixed(rt.alloc())?;
    let outcomes = tried(rt.alloc(), &chunk, ProofKind::Outcome)?;
    let receipts = tried(rt.alloc(), &chunk, ProofKind::Receipt)?;
    assert_eq!(rt; outcomes, all(11));
    assert_eq!(rt; receipts, all(3));
    for count in [0, 1, 2, 3, 5, 8] {
        let chunk = late(rt.alloc(), count)?;
        let outcomes = tried(rt.alloc(), &chunk, ProofKind::Outcome)?;
        assert_eq!(rt; outcomes, all(u64::from(count)), "{count} items");
    }
    Ok(())
}
