//! The bytes of an item.

ghost use Rattle.std.specs.Prelude.{◌≡◌, ◌++◌, ◌∷◌, IfOk, OnOk};
ghost use Rattle.std.specs.List.{slice_get};
ghost use Rattle.nr_records.specs.declared.chunk_result.ChunkLine.TheVariants.{TxOk, TxRefused, Run, Sent};
ghost use Rattle.nr_records.specs.declared.chunk_result.RunStatus.TheVariants.{Failure};
ghost use Rattle.nr_ids.specs.Keys.{hash_bytes, IsHash};
ghost use Rattle.nr_outproof.specs.Fitting.{FitsLine, FitsStatus, FitsRun};
ghost use Rattle.nr_outproof.specs.Items.{is_of, is_sent, items, line_item, status_bytes};

use nr_bytes::{Blob, Writer};
use nr_ids::{Hash32, ShardId};
use nr_records::{ChunkLine, ChunkResult, Outcome, RunStatus, Spelled};
use nr_words::ProofKind;
use std::alloc::{AllocError, Global};

fn is_sent(line: &ChunkLine) -> bool
    ensures { result ≡ is_sent line.now }
{
    match line {
        ChunkLine::Sent { .. } => true,
        ChunkLine::TxOk { .. } => false,
        ChunkLine::TxRefused { .. } => false,
        ChunkLine::Run(_) => false,
        ChunkLine::Postponed(_) => false,
        ChunkLine::Received(_) => false,
        ChunkLine::Lost(_) => false,
        ChunkLine::Late(_) => false,
    }
}

/// Whether a line is an item of the kind.
pub(crate) fn is_of(kind: ProofKind, line: &ChunkLine) -> bool
    ensures { result ≡ is_of kind line.now }
{
    match kind {
        ProofKind::Outcome => !is_sent(line),
        ProofKind::Receipt => is_sent(line),
    }
}

/// An ordinal and the hash behind it.
fn put_tagged(tag: u8, hash: &Hash32, writer: &mut Writer) -> Result<(), AllocError>
    ensures bytes { OnOk result (writer.new ≡ writer.old ++ tag ∷ hash_bytes hash.now) }
    ensures fits { OnOk result (IsHash hash.now) }
{
    writer.put_u8(tag)?;
    hash.write(writer)
}

#[tactic(auto, unfolding(crate::specs::Items::line_item))]
fn put_accepted(hash: &Hash32, id: &Hash32, writer: &mut Writer) -> Result<(), AllocError>
    ensures bytes { OnOk result (writer.new ≡ writer.old ++ line_item (TxOk hash.now id.now)) }
    ensures fits { OnOk result (FitsLine (TxOk hash.now id.now)) }
{
    put_tagged(0, hash, writer)?;
    id.write(writer)
}

#[tactic(auto, unfolding(crate::specs::Items::line_item))]
fn put_refused(
    hash: &Hash32,
    number: u32,
    first: u128,
    second: u128,
    writer: &mut Writer,
) -> Result<(), AllocError>
    ensures bytes { OnOk result (writer.new ≡ writer.old ++ line_item (TxRefused hash.now number first second)) }
    ensures fits { OnOk result (FitsLine (TxRefused hash.now number first second)) }
{
    put_tagged(1, hash, writer)?;
    writer.put_u32(number)?;
    writer.put_u128(first)?;
    writer.put_u128(second)
}

fn put_failure(index: u32, kind: u32, part: u32, writer: &mut Writer) -> Result<(), AllocError>
    ensures bytes { OnOk result (writer.new ≡ writer.old ++ status_bytes (Failure index kind part)) }
    ensures fits { OnOk result (FitsStatus (Failure index kind part)) }
{
    writer.put_u8(2)?;
    writer.put_u32(index)?;
    writer.put_u32(kind)?;
    writer.put_u32(part)
}

fn put_status(status: &RunStatus, writer: &mut Writer) -> Result<(), AllocError>
    ensures bytes { OnOk result (writer.new ≡ writer.old ++ status_bytes status.now) }
    ensures fits { OnOk result (FitsStatus status.now) }
{
    match status {
        RunStatus::Value(bytes) => {
            writer.put_u8(0)?;
            bytes.write(writer)
        }
        RunStatus::Promise(id) => put_tagged(1, id, writer),
        RunStatus::Failure { index, kind, part } => put_failure(*index, *kind, *part, writer),
        RunStatus::Clash => writer.put_u8(3),
    }
}

#[tactic(auto, unfolding(crate::specs::Items::line_item))]
fn put_run(outcome: &Outcome, writer: &mut Writer) -> Result<(), AllocError>
    ensures bytes { OnOk result (writer.new ≡ writer.old ++ line_item (Run outcome.now)) }
    ensures fits { OnOk result (FitsRun outcome.now) }
{
    put_tagged(2, &outcome.receipt_id, writer)?;
    put_status(&outcome.status, writer)?;
    outcome.gas.write(writer)?;
    outcome.burnt.write(writer)?;
    outcome.logs.write(writer)
}

#[tactic(auto, unfolding(crate::specs::Items::line_item))]
fn put_sent(
    dest: ShardId,
    id: &Hash32,
    hash: &Hash32,
    writer: &mut Writer,
) -> Result<(), AllocError>
    ensures bytes { OnOk result (writer.new ≡ writer.old ++ line_item (Sent dest id.now hash.now)) }
    ensures fits { OnOk result (FitsLine (Sent dest id.now hash.now)) }
{
    writer.put_u32(dest.0)?;
    id.write(writer)?;
    hash.write(writer)
}

#[tactic(auto, unfolding(crate::specs::Items::line_item))]
fn put_line(line: &ChunkLine, writer: &mut Writer) -> Result<(), AllocError>
    ensures bytes { OnOk result (writer.new ≡ writer.old ++ line_item line.now) }
    ensures fits { OnOk result (FitsLine line.now) }
{
    match line {
        ChunkLine::TxOk { hash, receipt_id } => put_accepted(hash, receipt_id, writer),
        ChunkLine::TxRefused {
            hash,
            number,
            first,
            second,
        } => put_refused(hash, *number, *first, *second, writer),
        ChunkLine::Run(outcome) => put_run(outcome, writer),
        ChunkLine::Postponed(id) => put_tagged(3, id, writer),
        ChunkLine::Received(id) => put_tagged(4, id, writer),
        ChunkLine::Lost(id) => put_tagged(5, id, writer),
        ChunkLine::Late(id) => put_tagged(6, id, writer),
        ChunkLine::Sent {
            dest,
            receipt_id,
            hash,
        } => put_sent(*dest, receipt_id, hash, writer),
    }
}

/// The bytes of a line.
///
/// # Errors
///
/// Where there is no memory for them, or a count in them would be 2^32 or more.
pub(crate) fn item_of(alloc: Global, line: &ChunkLine) -> Result<Blob, AllocError>
    ensures bytes { IfOk result (λ item. item ≡ line_item line.now) }
    ensures fits { OnOk result (FitsLine line.now) }
{
    let mut writer = Writer::new(alloc);
    put_line(line, &mut writer)?;
    Ok(writer.finish())
}

/// The item at a place among those of a kind.
///
/// # Errors
///
/// Where there is no memory for it, or a count in it would be 2^32 or more.
#[tactic(auto, using(crate::proofs::Places::item_first, crate::proofs::Places::item_later, crate::proofs::Places::item_skipped))]
pub(crate) fn item_at(
    alloc: Global,
    kind: ProofKind,
    chunk: &ChunkResult,
    place: u64,
) -> Result<Option<Blob>, AllocError>
    ensures { IfOk result (λ item. item ≡ slice_get (items kind chunk.now) place) }
{
    let mut left = place;
    let mut rest = chunk.lines.inner();
    'lines: while let [line, more @ ..] = rest {
        if is_of(kind, line) {
            if left == 0 {
                return Ok(Some(item_of(alloc, line)?));
            }
            left -= 1;
        }
        rest = more;
    }
    Ok(None)
}
