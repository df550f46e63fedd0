//! The text of the chunks of a run that is over.

ghost use Rattle.std.specs.Prelude.{◌≡◌, ◌+◌, ◌-◌, ◌++◌, IfOk, OnOk};
ghost use Rattle.std.specs.Option.{option_copied};
ghost use Rattle.nr_outcome.specs.Reports.{report_in};
ghost use Rattle.nr_outcome.specs.Texts.{height_text, heights_text, report_text};

use crate::reports::Reports;
use nr_bytes::Blob;
use nr_ids::{Height, ShardId};
use nr_records::ChunkResult;
use nr_report::write_chunk;
use std::alloc::{AllocError, Global};

/// Adds the text of a chunk, if it is there.
///
/// # Errors
///
/// Where memory runs out.
pub fn add_lines(
    alloc: Global,
    report: Option<&ChunkResult>,
    text: &mut Blob,
) -> Result<(), AllocError>
    ensures { OnOk result (text.new ≡ text.old ++ report_text (option_copied report.entry)) }
{
    match report {
        Some(report) => write_chunk(alloc, report, text),
        None => Ok(()),
    }
}

/// Adds the text of the chunks of a height.
#[tactic(auto, unfolding(crate::specs::Texts::text_below))]
fn add_height(
    alloc: Global,
    reports: &Reports,
    height: Height,
    text: &mut Blob,
) -> Result<(), AllocError>
    ensures { OnOk result (text.new ≡ text.old ++ height_text reports.now.shards (report_in reports.now) height.0) }
{
    for shard in 0..reports.shards {
        add_lines(alloc, reports.report(ShardId(shard), height), text)?;
    }
    Ok(())
}

impl Reports {
    /// The text of the chunks of the heights above one, up to another: by height and then shard. The text of two ranges
    /// of heights, one behind the other, is that of both.
    ///
    /// # Errors
    ///
    /// Where memory runs out.
    #[tactic(auto, unfolding(crate::specs::Texts::text_below))]
    pub fn text(&self, alloc: Global, above: Height, to: Height) -> Result<Blob, AllocError>
        ensures { IfOk result (λ text. text ≡ heights_text self.now.shards (report_in self.now) above.0 to.0) }
    {
        let mut text = Blob::of(Vec::new(alloc));
        for below in above.0..to.0 {
            add_height(alloc, self, Height(below + 1), &mut text)?;
        }
        Ok(text)
    }
}

/// A text with another one behind it.
///
/// # Errors
///
/// Where memory ran out.
pub fn joined(first: Blob, end: &Blob) -> Result<Blob, AllocError>
    ensures { IfOk result (λ text. text ≡ first ++ end.now) }
{
    let mut text = first;
    text.vec_mut().extend_from_slice(end.inner())?;
    Ok(text)
}
