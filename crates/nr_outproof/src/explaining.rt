//! What an accepted proof shows.

ghost use Rattle.std.specs.Prelude.{◌≡◌, ◌≢◌, ◌↔◌, IfOk, IsTrue, Some, length};
ghost use Rattle.std.specs.List.{slice_get};
ghost use Rattle.nr_outproof.specs.Items.{items};
ghost use Rattle.nr_outproof.specs.Meeting.{Meets};
ghost use Rattle.nr_outproof.specs.Proofs.{Accepts, Explains, IsOf, SameRoot, root_of};
ghost use Rattle.nr_outproof.specs.Tree.{climb, leaf_tops, way_of};
ghost use Rattle.nr_outproof.specs.declared.explaining.Explained.TheVariants.{Collision};

use crate::hashing::{joined, joined_text, leaf_text, leaf_top};
use crate::items::item_at;
use crate::levels::{Side, path_of, way_of};
use crate::proof::Proof;
use crate::proving::{chunk_text, leaf_tops};
use crate::verifying::stated_text;
use nr_bytes::Blob;
use nr_ids::Hash32;
use nr_records::ChunkResult;
use nr_words::ProofKind;
use std::alloc::{AllocError, Global};

/// What stands behind a proof that was accepted.
#[derive(Debug, Drop)]
pub enum Explained {
    /// The chunk has the item at the place.
    Same,
    /// It has not, and two different texts have one SHA-256.
    Collision {
        /// A text that is hashed in the check of the proof.
        first: Blob,
        /// A text that is hashed in the chunk's tree.
        second: Blob,
    },
}

fn collision(first: Blob, second: Blob) -> Explained
    ensures { result ≡ Collision first second }
{
    Explained::Collision { first, second }
}

/// The texts of the first level at which two ways of the same sides meet.
fn meeting(
    alloc: Global,
    way: &[Side],
    first: &Hash32,
    first_path: &[Hash32],
    second: &Hash32,
    second_path: &[Hash32],
) -> Result<Explained, AllocError>
    requires differ { first.now ≢ second.now }
    requires alike { length first.now.0 ≡ length second.now.0 }
    requires first_long { length first_path.now ≡ length way.now }
    requires second_long { length second_path.now ≡ length way.now }
    requires meet { climb way.now first.now first_path.now ≡ climb way.now second.now second_path.now }
    ensures { IfOk result (Meets way.now first.now first_path.now second.now second_path.now) }
{
    let mut sides = way;
    let mut first = *first;
    let mut first_path = first_path;
    let mut second = *second;
    let mut second_path = second_path;
    'levels: while let [side, more_sides @ ..] = sides {
        let [one, more_first @ ..] = first_path else {
            unreachable!()
        };
        let [other, more_second @ ..] = second_path else {
            unreachable!()
        };
        let first_top = joined(*side, &first, one);
        let second_top = joined(*side, &second, other);
        if first_top == second_top {
            let first_text = joined_text(alloc, *side, &first, one)?;
            let second_text = joined_text(alloc, *side, &second, other)?;
            return Ok(collision(first_text, second_text));
        }
        sides = more_sides;
        first = first_top;
        first_path = more_first;
        second = second_top;
        second_path = more_second;
    }
    unreachable!()
}

/// Whether the chunk has so many items of the kind, and what a proof states of it is so.
fn is_so(
    alloc: Global,
    chunk: &ChunkResult,
    kind: ProofKind,
    proof: &Proof,
    count: u64,
) -> Result<bool, AllocError>
    requires { count ≡ length (items kind chunk.now) }
    ensures { IfOk result (λ so. IsTrue so ↔ IsOf chunk.now kind proof.now) }
{
    if proof.kind != kind || proof.height != chunk.height || proof.shard != chunk.shard {
        return Ok(false);
    }
    if proof.count != count {
        return Ok(false);
    }
    match item_at(alloc, kind, chunk, proof.place)? {
        Some(item) => Ok(item.inner() == proof.item.inner()),
        None => Ok(false),
    }
}

/// The texts of one hash behind a false proof, whose root text is the chunk's own; the chunk has this
/// item at the place.
fn explain_way(
    alloc: Global,
    chunk: &ChunkResult,
    kind: ProofKind,
    proof: &Proof,
    item: &[u8],
    way: &[Side],
    tops: &[Hash32],
) -> Result<Explained, AllocError>
    requires accepted { Accepts (root_of chunk.now kind) proof.now }
    requires wrong { IsOf chunk.now kind proof.now → ⊥ }
    requires same { SameRoot chunk.now kind proof.now }
    requires item { slice_get (items kind chunk.now) proof.now.place ≡ Some item.now }
    requires way { way.now ≡ way_of proof.now.count proof.now.place }
    requires tops { tops.now ≡ leaf_tops (items kind chunk.now) }
    ensures { IfOk result (λ explained. Explains explained chunk.now kind proof.now) }
{
    let leaf = leaf_top(proof.item.inner());
    let own_leaf = leaf_top(item);
    if leaf == own_leaf {
        let text = leaf_text(alloc, proof.item.inner())?;
        let own_text = leaf_text(alloc, item)?;
        return Ok(collision(text, own_text));
    }
    let path = path_of(alloc, tops, proof.place as usize)?;
    meeting(alloc, way, &leaf, proof.path.inner(), &own_leaf, &path)
}

/// The same, whatever item the chunk has there.
fn explain_item(
    alloc: Global,
    chunk: &ChunkResult,
    kind: ProofKind,
    proof: &Proof,
    way: &[Side],
    tops: &[Hash32],
) -> Result<Explained, AllocError>
    requires accepted { Accepts (root_of chunk.now kind) proof.now }
    requires wrong { IsOf chunk.now kind proof.now → ⊥ }
    requires same { SameRoot chunk.now kind proof.now }
    requires way { way.now ≡ way_of proof.now.count proof.now.place }
    requires tops { tops.now ≡ leaf_tops (items kind chunk.now) }
    ensures { IfOk result (λ explained. Explains explained chunk.now kind proof.now) }
{
    let Some(item) = item_at(alloc, kind, chunk, proof.place)? else {
        unreachable!()
    };
    explain_way(alloc, chunk, kind, proof, item.inner(), way, tops)
}

/// The texts of one hash behind a false proof.
fn explain_false(
    alloc: Global,
    chunk: &ChunkResult,
    kind: ProofKind,
    proof: &Proof,
    tops: &[Hash32],
) -> Result<Explained, AllocError>
    requires accepted { Accepts (root_of chunk.now kind) proof.now }
    requires wrong { IsOf chunk.now kind proof.now → ⊥ }
    requires tops { tops.now ≡ leaf_tops (items kind chunk.now) }
    ensures { IfOk result (λ explained. Explains explained chunk.now kind proof.now) }
{
    let own = chunk_text(alloc, chunk, kind, tops)?;
    let way = way_of(alloc, proof.count, proof.place)?;
    let stated = stated_text(alloc, proof, &way)?;
    if stated.inner() != own.inner() {
        return Ok(collision(stated, own));
    }
    explain_item(alloc, chunk, kind, proof, &way, tops)
}

/// What stands behind a proof that is accepted against the root of a chunk's items of a kind.
///
/// `Same` exactly where the proof is of this chunk and kind, states their count and has the item that
/// the chunk has at the place. Else two different texts that have one SHA-256.
///
/// # Errors
///
/// Where there is no memory for some 32 bytes for each item and for the longest of them, or a count
/// in an item would be 2^32 or more.
pub fn explain(
    alloc: Global,
    chunk: &ChunkResult,
    kind: ProofKind,
    proof: &Proof,
) -> Result<Explained, AllocError>
    requires { Accepts (root_of chunk.now kind) proof.now }
    // The proof is so, or it isn't and the texts have one hash; the first is hashed in the check of the
    // proof and the second in the making of the chunk's root.
    ensures { IfOk result (λ explained. Explains explained chunk.now kind proof.now) }
{
    let tops = leaf_tops(alloc, kind, chunk)?;
    if is_so(alloc, chunk, kind, proof, tops.len() as u64)? {
        return Ok(Explained::Same);
    }
    explain_false(alloc, chunk, kind, proof, &tops)
}
