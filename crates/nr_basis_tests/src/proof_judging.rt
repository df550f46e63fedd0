//! What the calls for proofs of items answer, as plain values.

use nr_bytes::Blob;
use nr_ids::Hash32;
use nr_outproof::{
    Explained, Proof, ProofFault, ProofKind, chunk_root, explain, item_count, prove, read_proof,
    verify, write_proof,
};
use nr_records::ChunkResult;
use std::alloc::{AllocError, Global};

/// How many proofs of a chunk passed each trial.
#[derive(Clone, Copy, Debug, PartialEq, Eq)]
pub(crate) struct Passed {
    /// They were made.
    pub(crate) made: u64,
    /// They were accepted, and explained as the chunk's own.
    pub(crate) explained: u64,
    /// Their texts were read back and written anew as the same bytes, and what was read is accepted.
    pub(crate) read_back: u64,
}

/// Whether a proof is accepted and explained as the chunk's own.
fn is_explained(
    alloc: Global,
    chunk: &ChunkResult,
    kind: ProofKind,
    proof: &Proof,
) -> Result<bool, AllocError> {
    let root = chunk_root(alloc, chunk, kind)?;
    if verify(alloc, &root, proof)? {
        Ok(matches!(explain(alloc, chunk, kind, proof)?, Explained::Same))
    } else {
        Ok(false)
    }
}

fn text_of(alloc: Global, proof: &Proof) -> Result<Blob, AllocError> {
    let mut text = Blob::of(Vec::new(alloc));
    write_proof(alloc, proof, &mut text)?;
    Ok(text)
}

/// Whether the text of a proof is read back, and what is read is accepted.
fn is_read_back(alloc: Global, root: &Hash32, proof: &Proof) -> Result<bool, AllocError> {
    let text = text_of(alloc, proof)?;
    match read_proof(alloc, text.inner()) {
        Ok(back) => Ok(
            text_of(alloc, &back)?.inner() == text.inner() && verify(alloc, root, &back)?,
        ),
        Err(_) => Ok(false),
    }
}

fn add_proof(
    alloc: Global,
    chunk: &ChunkResult,
    kind: ProofKind,
    proof: &Proof,
    passed: &mut Passed,
) -> Result<(), AllocError> {
    passed.made = passed.made.saturating_add(1);
    if is_explained(alloc, chunk, kind, proof)? {
        passed.explained = passed.explained.saturating_add(1);
    }
    let root = chunk_root(alloc, chunk, kind)?;
    if is_read_back(alloc, &root, proof)? {
        passed.read_back = passed.read_back.saturating_add(1);
    }
    Ok(())
}

/// The trials of all proofs of a chunk.
pub(crate) fn tried(
    alloc: Global,
    chunk: &ChunkResult,
    kind: ProofKind,
) -> Result<Passed, AllocError> {
    let mut passed = Passed {
        made: 0,
        explained: 0,
        read_back: 0,
    };
    for place in 0..item_count(chunk, kind) {
        if let Some(proof) = prove(alloc, chunk, kind, place)? {
            add_proof(alloc, chunk, kind, &proof, &mut passed)?;
        }
    }
    Ok(passed)
}

/// The texts of all proofs of a chunk, one after the other.
pub(crate) fn texts(
    alloc: Global,
    chunk: &ChunkResult,
    kind: ProofKind,
) -> Result<Blob, AllocError> {
    let mut texts = Blob::of(Vec::new(alloc));
    for place in 0..item_count(chunk, kind) {
        if let Some(proof) = prove(alloc, chunk, kind, place)? {
            write_proof(alloc, &proof, &mut texts)?;
        }
    }
    Ok(texts)
}

/// How long the path of a place is, where there is an item.
pub(crate) fn path_length(
    alloc: Global,
    chunk: &ChunkResult,
    place: u64,
) -> Result<Option<usize>, AllocError> {
    match prove(alloc, chunk, ProofKind::Outcome, place)? {
        Some(proof) => Ok(Some(proof.path.inner().len())),
        None => Ok(None),
    }
}

/// The first faulty line of a text, 0 where it is read and `u64::MAX` without memory.
pub(crate) fn faulty_line(alloc: Global, text: &[u8]) -> u64 {
    match read_proof(alloc, text) {
        Ok(_) => 0,
        Err(ProofFault::Form { line }) => line,
        Err(ProofFault::Memory) => u64::MAX,
    }
}

/// Whether the proof of a text is accepted against a root, where it is read.
pub(crate) fn is_accepted(
    alloc: Global,
    root: &Hash32,
    text: &[u8],
) -> Result<Option<bool>, AllocError> {
    match read_proof(alloc, text) {
        Ok(proof) => Ok(Some(verify(alloc, root, &proof)?)),
        Err(_) => Ok(None),
    }
}
