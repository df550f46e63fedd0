//! The text of a proof. The calls on a text add to it, and want of memory leaves a part.

ghost use Rattle.std.specs.Prelude.{◌≡◌, ◌++◌, IfOk, OnErr, OnOk, string_bytes};
ghost use Rattle.std.specs.List.{flat_map};
ghost use Rattle.nr_outproof.specs.Texts.{head_line, item_line, path_line, proof_text};

use crate::proof::Proof;
use nr_bytes::Blob;
use nr_ids::Hash32;
use nr_report::{byte_digits, hash_digits};
use std::alloc::{AllocError, Global};
use std::fmt::Write;

fn print_head(proof: &Proof, text: &mut String) -> Result<(), AllocError>
    ensures { OnOk result (string_bytes text.new ≡ string_bytes text.old ++ head_line proof.now) }
{
    let kind = proof.kind.word();
    let height = proof.height.0;
    let shard = proof.shard.0;
    let place = proof.place;
    let count = proof.count;
    writeln!(text, "proof {kind} {height} {shard} {place} {count}")
}

fn print_item(alloc: Global, item: &[u8], text: &mut String) -> Result<(), AllocError>
    ensures { OnOk result (string_bytes text.new ≡ string_bytes text.old ++ item_line item.now) }
{
    let bytes = byte_digits(alloc, item)?;
    writeln!(text, "item {bytes}")
}

fn print_path(alloc: Global, path: &[Hash32], text: &mut String) -> Result<(), AllocError>
    ensures { OnOk result (string_bytes text.new ≡ string_bytes text.old ++ flat_map path_line path.now) }
{
    for hash in path {
        let hash = hash_digits(alloc, hash)?;
        writeln!(text, "path {hash}")?;
    }
    Ok(())
}

#[tactic(auto, unfolding(crate::specs::Texts::proof_text))]
fn print_proof(alloc: Global, proof: &Proof) -> Result<String, AllocError>
    ensures { IfOk result (λ text. string_bytes text ≡ proof_text proof.now) }
{
    let mut text = String::new(alloc);
    print_head(proof, &mut text)?;
    print_item(alloc, proof.item.inner(), &mut text)?;
    print_path(alloc, proof.path.inner(), &mut text)?;
    Ok(text)
}

/// Adds the text of a proof to `out`: the line `proof KIND HEIGHT SHARD PLACE COUNT`, the line `item
/// BYTES`, and a line `path HASH` for each top beside the way, the lowest first. Numbers are decimal,
/// bytes and hashes lower-case hexadecimal, and no bytes a dash.
///
/// # Errors
///
/// Where memory ran out; `out` is then as before.
pub fn write_proof(alloc: Global, proof: &Proof, out: &mut Blob) -> Result<(), AllocError>
    ensures ok { OnOk result (out.new ≡ out.old ++ proof_text proof.now) }
    ensures err { OnErr result (out.new ≡ out.old) }
{
    let text = print_proof(alloc, proof)?;
    out.vec_mut().extend_from_slice(text.as_bytes())
}
