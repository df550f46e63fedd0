//! The check of a proof.

ghost use Rattle.std.specs.Prelude.{◌≡◌, ◌<◌, ◌↔◌, IfOk, IsTrue};
ghost use Rattle.nr_outproof.specs.Proofs.{Accepts, FitsRoot, accepts, stated_text};
ghost use Rattle.nr_outproof.specs.Tree.{way_of};

use crate::hashing::{digest, leaf_top, root_text};
use crate::levels::{Side, climb, way_of};
use crate::proof::Proof;
use nr_bytes::Blob;
use nr_ids::Hash32;
use std::alloc::{AllocError, Global};

/// The text of the root that a proof states, along its way.
pub(crate) fn stated_text(alloc: Global, proof: &Proof, way: &[Side]) -> Result<Blob, AllocError>
    requires { way.now ≡ way_of proof.now.count proof.now.place }
    ensures text { IfOk result (λ text. text ≡ stated_text proof.now) }
    ensures fits { FitsRoot proof.now.height.0 proof.now.shard.0 proof.now.count }
{
    let leaf = leaf_top(proof.item.inner());
    let top = climb(way, &leaf, proof.path.inner());
    root_text(
        alloc,
        proof.kind,
        proof.height,
        proof.shard,
        proof.count,
        &top,
    )
}

/// Whether the way of a proof leads to a root, where its place is below its count.
#[tactic(auto, unfolding(crate::specs::Proofs::accepts))]
fn leads(alloc: Global, root: &Hash32, proof: &Proof) -> Result<bool, AllocError>
    requires { proof.now.place < proof.now.count }
    ensures { IfOk result (λ holds. holds ≡ accepts root.now proof.now) }
{
    let way = way_of(alloc, proof.count, proof.place)?;
    if way.len() != proof.path.inner().len() {
        return Ok(false);
    }
    let text = stated_text(alloc, proof, &way)?;
    Ok(digest(text.inner()) == *root)
}

#[tactic(auto, unfolding(crate::specs::Proofs::accepts))]
fn accepts(alloc: Global, root: &Hash32, proof: &Proof) -> Result<bool, AllocError>
    ensures { IfOk result (λ holds. holds ≡ accepts root.now proof.now) }
{
    if proof.place < proof.count {
        leads(alloc, root, proof)
    } else {
        Ok(false)
    }
}

/// Whether a proof is one against a root: its place is below its count, its path is as long as the
/// way from that place up, and hashing up that way gives the root.
///
/// # Errors
///
/// Where there is no memory for some 200 bytes.
#[tactic(auto, using(crate::proofs::Judging::answer_accepts))]
pub fn verify(alloc: Global, root: &Hash32, proof: &Proof) -> Result<bool, AllocError>
    ensures value { IfOk result (λ holds. holds ≡ accepts root.now proof.now) }
    // It is so exactly where the proof is accepted.
    ensures holds { IfOk result (λ holds. IsTrue holds ↔ Accepts root.now proof.now) }
{
    accepts(alloc, root, proof)
}
