//! The texts of a tree and their hashes.

ghost use Rattle.std.specs.Prelude.{◌≡◌, IfOk};
ghost use Rattle.nr_outproof.specs.Tree.{joined, joined_text, leaf_text, leaf_top, pair_text, pair_top, digest};
ghost use Rattle.nr_outproof.specs.Proofs.{FitsRoot, kind_byte, root_text};

use crate::levels::Side;
use nr_bytes::{Blob, Writer};
use nr_ids::{Hash32, Height, ShardId};
use nr_words::ProofKind;
use sha2::{Digest, Sha256};
use std::alloc::{AllocError, Global};

/// The top of one item.
pub(crate) fn leaf_top(item: &[u8]) -> Hash32
    ensures { result ≡ leaf_top item.now }
{
    let mut hasher = Sha256::new();
    hasher.update([0]);
    hasher.update(item);
    Hash32(hasher.finalize())
}

/// The text of an item.
pub(crate) fn leaf_text(alloc: Global, item: &[u8]) -> Result<Blob, AllocError>
    ensures { IfOk result (λ text. text ≡ leaf_text item.now) }
{
    let mut writer = Writer::new(alloc);
    writer.put_u8(0)?;
    writer.put_raw(item)?;
    Ok(writer.finish())
}

/// The top of two tops.
pub(crate) fn pair_top(left: &Hash32, right: &Hash32) -> Hash32
    ensures { result ≡ pair_top left.now right.now }
{
    let mut hasher = Sha256::new();
    hasher.update([1]);
    hasher.update(left.0);
    hasher.update(right.0);
    Hash32(hasher.finalize())
}

fn pair_text(alloc: Global, left: &Hash32, right: &Hash32) -> Result<Blob, AllocError>
    ensures { IfOk result (λ text. text ≡ pair_text left.now right.now) }
{
    let mut writer = Writer::new(alloc);
    writer.put_u8(1)?;
    writer.put_raw(&left.0)?;
    writer.put_raw(&right.0)?;
    Ok(writer.finish())
}

/// The top of a top and the one beside it.
pub(crate) fn joined(side: Side, top: &Hash32, beside: &Hash32) -> Hash32
    ensures { result ≡ joined side top.now beside.now }
{
    match side {
        Side::Left => pair_top(top, beside),
        Side::Right => pair_top(beside, top),
    }
}

/// The text of a top and the one beside it.
pub(crate) fn joined_text(
    alloc: Global,
    side: Side,
    top: &Hash32,
    beside: &Hash32,
) -> Result<Blob, AllocError>
    ensures { IfOk result (λ text. text ≡ joined_text side top.now beside.now) }
{
    match side {
        Side::Left => pair_text(alloc, top, beside),
        Side::Right => pair_text(alloc, beside, top),
    }
}

fn kind_byte(kind: ProofKind) -> u8
    ensures { result ≡ kind_byte kind }
{
    match kind {
        ProofKind::Outcome => 0,
        ProofKind::Receipt => 1,
    }
}

/// The text that is hashed for a root.
pub(crate) fn root_text(
    alloc: Global,
    kind: ProofKind,
    height: Height,
    shard: ShardId,
    count: u64,
    top: &Hash32,
) -> Result<Blob, AllocError>
    ensures text { IfOk result (λ text. text ≡ root_text kind height.0 shard.0 count top.now) }
    ensures fits { FitsRoot height.0 shard.0 count }
{
    let mut writer = Writer::new(alloc);
    writer.put_u8(2)?;
    writer.put_u8(kind_byte(kind))?;
    writer.put_u64(height.0)?;
    writer.put_u32(shard.0)?;
    writer.put_u64(count)?;
    writer.put_raw(&top.0)?;
    Ok(writer.finish())
}

/// The hash of a text.
pub(crate) fn digest(text: &[u8]) -> Hash32
    ensures { result ≡ digest text.now }
{
    Hash32(Sha256::digest(text))
}
