//! Proofs that are bent, and texts that are none.

use crate::proof_chunks::late;
use crate::proof_judging::{faulty_line, is_accepted};
use crate::proof_texts::SECOND;
use nr_ids::Hash32;
use nr_outproof::{ProofKind, chunk_root};
use std::alloc::{AllocError, Global};
use std::test::Fail;

/// The root of three outcomes, of which `SECOND` is a proof.
fn three(alloc: Global) -> Result<Hash32, AllocError> {
    let chunk = late(alloc, 3)?;
    chunk_root(alloc, &chunk, ProofKind::Outcome)
}

/// The answer for that proof with another byte at a place of its text.
fn answer(alloc: Global, root: &Hash32, at: usize, byte: u8) -> Result<Option<bool>, AllocError> {
    let mut text = Vec::from_slice(alloc, SECOND.as_slice())?;
    if let Some(place) = text.get_mut(at) {
        *place = byte;
    }
    is_accepted(alloc, root, &text)
}

#[test]
fn a_proof_with_a_changed_byte_is_not_accepted(rt: HostRuntime) -> Result<(), Fail> {
    let root = three(rt.alloc())?;
    let cases = [
        // another height, shard, place and count
        (14, b'8'),
        (16, b'2'),
        (18, b'0'),
        (18, b'2'),
        (18, b'3'),
        (20, b'2'),
        (20, b'4'),
        // another item
        (28, b'5'),
        (92, b'2'),
        // other hashes
        (99, b'7'),
        (162, b'4'),
        (169, b'5'),
        (232, b'e'),
    ];
    for (at, byte) in cases {
        let bent = answer(rt.alloc(), &root, at, byte)?;
        assert_eq!(rt; bent, Some(false), "byte {at}");
    }
    let whole = answer(rt.alloc(), &root, SECOND.len(), 0)?;
    assert_eq!(rt; whole, Some(true));
    Ok(())
}

/// The answer for a text of these three parts.
fn joined(
    alloc: Global,
    root: &Hash32,
    first: &[u8],
    second: &[u8],
    third: &[u8],
) -> Result<Option<bool>, AllocError> {
    let mut text = Vec::from_slice(alloc, first)?;
    text.extend_from_slice(second)?;
    text.extend_from_slice(third)?;
    is_accepted(alloc, root, &text)
}

#[test]
fn a_proof_of_another_kind_root_or_length_is_not_accepted(rt: HostRuntime) -> Result<(), Fail> {
    let root = three(rt.alloc())?;
    let last = &SECOND[164..];
    let kind = joined(rt.alloc(), &root, b"proof receipt", &SECOND[13..], b"")?;
    assert_eq!(rt; kind, Some(false));
    let shorter = joined(rt.alloc(), &root, &SECOND[..164], b"", b"")?;
    assert_eq!(rt; shorter, Some(false));
    let longer = joined(rt.alloc(), &root, SECOND.as_slice(), last, b"")?;
    assert_eq!(rt; longer, Some(false));
    let whole = joined(rt.alloc(), &root, &SECOND[..164], last, b"")?;
    assert_eq!(rt; whole, Some(true));
    let mut other = root;
    other.0[0] = other.0[0] ^ 1;
    let root = joined(rt.alloc(), &other, SECOND.as_slice(), b"", b"")?;
    assert_eq!(rt; root, Some(false));
    Ok(())
}

fn fault_of(alloc: Global, first: &[u8], second: &[u8]) -> Result<u64, AllocError> {
    let mut text = Vec::from_slice(alloc, first)?;
    text.extend_from_slice(second)?;
    Ok(faulty_line(alloc, &text))
}

/// First lines, and the number of the first faulty line where one of an item follows.
const FIRST_LINES: [(&[u8], u64); 20] = [
    (b"proof receipt 1 0 0 1", 0),
    (
        b"proof outcome 18446744073709551615 4294967295 18446744073709551615 18446744073709551615",
        0,
    ),
    (b"proof receipt 18446744073709551616 0 0 1", 1),
    (b"proof receipt 1 4294967296 0 1", 1),
    (b"proof receipt 1 0 18446744073709551616 1", 1),
    (b"proof receipt 1 0 0 18446744073709551616", 1),
    (b"proof receipt 01 0 0 1", 1),
    (b"proof receipt 1 00 0 1", 1),
    (b"proof receipt 1 0 -0 1", 1),
    (b"proof receipt 1 0 0 +1", 1),
    (b"proof receipts 1 0 0 1", 1),
    (b"proof Receipt 1 0 0 1", 1),
    (b"prove receipt 1 0 0 1", 1),
    (b"proof receipt 1 0 0", 1),
    (b"proof receipt 1 0 0 1 1", 1),
    (b"proof receipt  1 0 0 1", 1),
    (b"proof receipt 1 0 0 1 ", 1),
    (b" proof receipt 1 0 0 1", 1),
    (b"proof receipt 1 0 0 1\r", 1),
    (b"", 1),
];

/// What follows a good first line, and the number of the first faulty line.
const RESTS: [(&[u8], u64); 19] = [
    (b"", 1),
    (b"\n", 2),
    (b"\nitem 00", 2),
    (b"\nitem 00\n", 0),
    (b"\nitem -\n", 0),
    (b"\nitem \n", 2),
    (b"\nitem\n", 2),
    (b"\nitem 0\n", 2),
    (b"\nitem 0A\n", 2),
    (b"\nitem 0g\n", 2),
    (b"\nitem --\n", 2),
    (b"\nitem 00 \n", 2),
    (b"\nitems 00\n", 2),
    (b"\npath 00\n", 2),
    (b"\nitem 00\n\n", 3),
    (b"\nitem 00\nx", 3),
    (b"\nitem 00\nitem 00\n", 3),
    (b"\nitem 00\npath -\n", 3),
    (b"\nitem 00\npath 00\n", 3),
];

#[test]
fn the_first_bad_line_is_named(rt: HostRuntime) -> Result<(), Fail> {
    for (line, want) in FIRST_LINES {
        let fault = fault_of(rt.alloc(), line, b"\nitem 00\n")?;
        assert_eq!(rt; fault, want, "{line:?}");
    }
    for (rest, want) in RESTS {
        let fault = fault_of(rt.alloc(), b"proof receipt 1 0 0 1", rest)?;
        assert_eq!(rt; fault, want, "{rest:?}");
    }
    Ok(())
}

#[test]
fn a_bad_path_is_named_by_its_line(rt: HostRuntime) -> Result<(), Fail> {
    let cases: [(usize, &[u8], u64); 10] = [
        (233, b"", 4),
        (233, b"\n", 0),
        (233, b"00\n", 4),
        (233, b" \n", 4),
        (233, b"\npath", 5),
        (233, b"\nx\n", 5),
        (232, b"\n", 4),
        (232, b"F\n", 4),
        (232, b"g\n", 4),
        (162, b"\n", 3),
    ];
    for (kept, rest, want) in cases {
        let fault = fault_of(rt.alloc(), &SECOND[..kept.min(SECOND.len())], rest)?;
        assert_eq!(rt; fault, want, "{kept} bytes and {rest:?}");
    }
    Ok(())
}
