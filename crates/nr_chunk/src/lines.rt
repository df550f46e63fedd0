//! What a chunk tells.

ghost use Rattle.std.specs.Prelude.{◌≡◌, OnOk};
ghost use Rattle.nr_chunk.specs.Chunk.{with_line};
ghost use Rattle.nr_chunk.specs.Works.{working_of};

use crate::work::Work;
use nr_records::ChunkLine;
use std::alloc::AllocError;

/// Adds a line.
pub(crate) fn tell(work: &mut Work, line: ChunkLine) -> Result<(), AllocError>
    ensures told { OnOk result (working_of work.new ≡ with_line (working_of work.old) line) }
    ensures state { work.new.state ≡ work.old.state }
{
    work.lines.push(line)?;
    Ok(())
}
