//! The text of a chunk and of the totals.

ghost use Rattle.std.specs.Prelude.{◌≡◌, ◌++◌, OnOk, OnErr};
ghost use Rattle.nr_report.specs.Lines.{chunk_text, totals_text};

use crate::printed::{print_chunk, print_totals};
use crate::totals::Totals;
use nr_bytes::Blob;
use nr_records::ChunkResult;
use std::alloc::{AllocError, Global};

/// Adds the text of a chunk to `out`. It has a line for the chunk and then a line for each of its
/// lines, with the logs of a run behind the run; a run that failed or clashed has no lines for its
/// logs.
///
/// # Errors
///
/// Where memory ran out; `out` is then as before.
pub fn write_chunk(alloc: Global, chunk: &ChunkResult, out: &mut Blob) -> Result<(), AllocError>
    ensures ok { OnOk result (out.new ≡ out.old ++ chunk_text chunk.now) }
    ensures err { OnErr result (out.new ≡ out.old) }
{
    let text = print_chunk(alloc, chunk)?;
    out.vec_mut().extend_from_slice(text.as_bytes())
}

/// Adds the five lines of the totals to `out`.
///
/// # Errors
///
/// Where memory ran out; `out` is then as before.
pub fn write_totals(alloc: Global, totals: &Totals, out: &mut Blob) -> Result<(), AllocError>
    ensures ok { OnOk result (out.new ≡ out.old ++ totals_text totals.now) }
    ensures err { OnErr result (out.new ≡ out.old) }
{
    let text = print_totals(alloc, totals)?;
    out.vec_mut().extend_from_slice(text.as_bytes())
}
