//! Roots and proofs of a chunk.

ghost use Rattle.std.specs.Prelude.{◌≡◌, ◌<◌, ◌++◌, ◌↔◌, IfOk, IfSome, IsSome, OnOk, count_by, length};
ghost use Rattle.std.specs.List.{AllByRecursion, flat_map};
ghost use Rattle.nr_outproof.specs.Fitting.{FitsKind};
ghost use Rattle.nr_outproof.specs.Items.{is_of, items};
ghost use Rattle.nr_outproof.specs.Proofs.{Accepts, FitsRoot, IsOf, chunk_text, proof_of, root_of};
ghost use Rattle.nr_outproof.specs.Leaves.{leaves_in};
ghost use Rattle.nr_outproof.specs.Tree.{leaf_tops};

use crate::hashing::{digest, leaf_top, root_text};
use crate::items::{is_of, item_at, item_of};
use crate::levels::{path_of, top_of};
use crate::proof::Proof;
use nr_bytes::{Blob, List};
use nr_ids::Hash32;
use nr_records::{ChunkLine, ChunkResult};
use nr_words::ProofKind;
use std::alloc::{AllocError, Global};

/// Adds the top of a line, where it is an item of the kind.
fn add_leaf(
    alloc: Global,
    kind: ProofKind,
    line: &ChunkLine,
    tops: &mut Vec<Hash32>,
) -> Result<(), AllocError>
    ensures tops { OnOk result (tops.new.items ≡ tops.old.items ++ leaves_in kind line.now) }
    ensures fits { OnOk result (FitsKind kind line.now) }
{
    if is_of(kind, line) {
        let item = item_of(alloc, line)?;
        tops.push(leaf_top(item.inner()))?;
    }
    Ok(())
}

fn add_leaves(
    alloc: Global,
    kind: ProofKind,
    lines: &[ChunkLine],
    tops: &mut Vec<Hash32>,
) -> Result<(), AllocError>
    ensures tops { OnOk result (tops.new.items ≡ tops.old.items ++ flat_map (leaves_in kind) lines.now) }
    ensures fits { OnOk result (AllByRecursion (FitsKind kind) lines.now) }
{
    for line in lines {
        add_leaf(alloc, kind, line, tops)?;
    }
    Ok(())
}

fn count_in(kind: ProofKind, lines: &[ChunkLine]) -> usize
    ensures { result ≡ count_by (is_of kind) lines.now }
{
    lines.iter().filter(|line| is_of(kind, line)).count()
}

/// How many items of a kind a chunk has.
#[tactic(auto, using(crate::proofs::Places::items_counted))]
pub fn item_count(chunk: &ChunkResult, kind: ProofKind) -> u64
    ensures { result ≡ length (items kind chunk.now) }
{
    count_in(kind, chunk.lines.inner()) as u64
}

/// The tops of the items of a kind.
///
/// # Errors
///
/// Where there is no memory for them or for one item, or a count in an item would be 2^32 or more.
#[tactic(auto, using(crate::proofs::Places::leaves_are))]
pub(crate) fn leaf_tops(
    alloc: Global,
    kind: ProofKind,
    chunk: &ChunkResult,
) -> Result<Vec<Hash32>, AllocError>
    ensures tops { IfOk result (λ tops. tops.items ≡ leaf_tops (items kind chunk.now)) }
    ensures fits { OnOk result (AllByRecursion (FitsKind kind) chunk.now.lines) }
{
    let mut tops = Vec::new(alloc);
    add_leaves(alloc, kind, chunk.lines.inner(), &mut tops)?;
    Ok(tops)
}

/// The text that is hashed for the root of a chunk, of whose items these are the tops.
pub(crate) fn chunk_text(
    alloc: Global,
    chunk: &ChunkResult,
    kind: ProofKind,
    tops: &[Hash32],
) -> Result<Blob, AllocError>
    requires { tops.now ≡ leaf_tops (items kind chunk.now) }
    ensures text { IfOk result (λ text. text ≡ chunk_text chunk.now kind) }
    ensures fits { OnOk result (FitsRoot chunk.now.height.0 chunk.now.shard.0 (length (items kind chunk.now))) }
{
    let top = top_of(alloc, tops)?;
    root_text(
        alloc,
        kind,
        chunk.height,
        chunk.shard,
        tops.len() as u64,
        &top,
    )
}

/// The root of the items of a chunk of a kind.
///
/// # Errors
///
/// Where there is no memory for some 32 bytes for each item and for the longest of them, or a count
/// in an item would be 2^32 or more.
pub fn chunk_root(alloc: Global, chunk: &ChunkResult, kind: ProofKind) -> Result<Hash32, AllocError>
    ensures root { IfOk result (λ root. root ≡ root_of chunk.now kind) }
    // The lines that are items fit, so that the bytes of each tell the line.
    ensures fits { OnOk result (AllByRecursion (FitsKind kind) chunk.now.lines) }
{
    let tops = leaf_tops(alloc, kind, chunk)?;
    let text = chunk_text(alloc, chunk, kind, &tops)?;
    Ok(digest(text.inner()))
}

fn proof_at(
    alloc: Global,
    chunk: &ChunkResult,
    kind: ProofKind,
    place: u64,
) -> Result<Option<Proof>, AllocError>
    ensures { IfOk result (λ proof. proof ≡ proof_of chunk.now kind place) }
{
    let Some(item) = item_at(alloc, kind, chunk, place)? else {
        return Ok(None);
    };
    let tops = leaf_tops(alloc, kind, chunk)?;
    let path = path_of(alloc, &tops, place as usize)?;
    Ok(Some(Proof {
        kind,
        height: chunk.height,
        shard: chunk.shard,
        place,
        count: tops.len() as u64,
        item,
        path: List::of(path),
    }))
}

/// The proof of the item at a place among those of a kind, or nothing where the place isn't below
/// their count.
///
/// # Errors
///
/// Where there is no memory for some 32 bytes for each item and for the longest of them, or a count
/// in an item would be 2^32 or more.
#[tactic(auto, using(crate::proofs::Accepting::answer_there, crate::proofs::Accepting::answer_so, crate::proofs::Accepting::answer_accepted))]
pub fn prove(
    alloc: Global,
    chunk: &ChunkResult,
    kind: ProofKind,
    place: u64,
) -> Result<Option<Proof>, AllocError>
    ensures proof { IfOk result (λ proof. proof ≡ proof_of chunk.now kind place) }
    // There is one exactly where the place is below the count.
    ensures there { IfOk result (λ proof. IsSome proof ↔ (place < length (items kind chunk.now))) }
    // What it states is so, and it is accepted against the chunk's root.
    ensures so { IfOk result (λ proof. IfSome proof (IsOf chunk.now kind)) }
    ensures accepted { IfOk result (λ proof. IfSome proof (Accepts (root_of chunk.now kind))) }
{
    proof_at(alloc, chunk, kind, place)
}
