//! `verify ROOT PROOF`.

ghost use Rattle.std.specs.Prelude.{◌≡◌, true, IfOk};
ghost use Rattle.nr_outproof.specs.Proofs.{accepts};
ghost use Rattle.nr_shell.specs.Answers.{Follows, Judges};
ghost use Rattle.nr_top.specs.Answers.{refuses};
ghost use Rattle.nr_top.specs.Plans.{verify_plan};
ghost use Rattle.nr_top.specs.Proving.{by_proof_bytes, judgement};
ghost use Rattle.nr_words.specs.Forms.{is_digest};

use crate::refused::proof_stop;
use crate::root_word::root_in;
use crate::status::Status;
use nr_bytes::{Blob, Shelf};
use nr_ids::Hash32;
use nr_outproof::{Proof, read_proof, verify};
use nr_shell::{Stop, load};
use std::alloc::{AllocError, Global};

/// The most bytes of a proof, 256 MiB.
const PROOF_LIMIT: usize = 268_435_456;

const LONG_PROOF: Status = Status::Proof { kind: 0, line: 0 };

/// What is said of a proof.
fn judgement(alloc: Global, valid: bool) -> Result<Blob, AllocError>
    ensures { IfOk result (λ text. text ≡ judgement valid) }
{
    let line = if valid { "valid\n" } else { "invalid\n" };
    Ok(Blob::of(Vec::from_slice(alloc, line.as_bytes())?))
}

/// Whether a proof is accepted against a root.
fn judged(alloc: Global, root: &Hash32, proof: &Proof) -> Result<Blob, AllocError>
    ensures { IfOk result (λ text. text ≡ judgement (accepts root.now proof.now)) }
{
    let valid = verify(alloc, root, proof)?;
    judgement(alloc, valid)
}

/// The same of the proof that some bytes spell.
fn judged_bytes(alloc: Global, root: &Hash32, bytes: &[u8]) -> Result<Blob, Stop<Status>>
    ensures { Judges refuses (λ text. text) result (by_proof_bytes root.now bytes.now) }
{
    let proof = match read_proof(alloc, bytes) {
        Ok(proof) => proof,
        Err(fault) => return Err(proof_stop(fault)),
    };
    match judged(alloc, root, &proof) {
        Ok(text) => Ok(text),
        Err(_) => Err(Stop::Memory),
    }
}

/// Whether the proof of a file is accepted against the root that 64 digits spell.
#[inline(never)]
pub(crate) fn verify_text<S: Shelf>(
    alloc: Global,
    root: &str,
    name: &str,
    shelf: &mut S,
) -> Result<Blob, Stop<Status>>
    requires { is_digest root.now ≡ true }
    ensures { Follows refuses (λ text. text) (S.held shelf.old) (S.held shelf.new)
        (S.asked shelf.old) (S.asked shelf.new) (S.faults shelf.old) (S.faults shelf.new)
        result (verify_plan root.now name.now) }
{
    let root = root_in(root);
    match load(alloc, name, PROOF_LIMIT, LONG_PROOF, shelf) {
        Ok(bytes) => judged_bytes(alloc, &root, &bytes),
        Err(stop) => Err(stop),
    }
}
