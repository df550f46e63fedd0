//! The text of the chunks of a run that is over. Each of some threads writes the text of a stretch of heights.

ghost use Rattle.std.specs.Prelude.{◌≡◌, ℕ, ◌+◌, ◌++◌, ◌<◌, ◌≤◌, IfOk, OnOk, IsOk, vec_len, slice_index_or};
ghost use Rattle.nr_outcome.specs.Reports.{report_in};
ghost use Rattle.nr_outcome.specs.Texts.{heights_text};
ghost use Rattle.nr_replay.specs.Stretches.{IsStretch, start_of};

use nr_bytes::Blob;
use nr_ids::Height;
use nr_outcome::Reports;
use std::alloc::{AllocError, Global};
use std::thread;
use std::thread::Threads;

/// How many stretches there are.
const STRETCHES: usize = 8;

/// How many heights lie below a stretch.
fn start_of(heights: u64, number: usize) -> u64
    requires { number ≤ 8 }
    ensures is { result ≡ start_of heights number }
    ensures within { result ≤ heights }
{
    let each = heights / STRETCHES as u64;
    let more = heights % STRETCHES as u64;
    each * number as u64 + more.min(number as u64)
}

/// The text of a stretch of heights.
fn stretch_of(
    alloc: Global,
    reports: &Reports,
    heights: u64,
    number: usize,
) -> Result<Blob, AllocError>
    requires { number < 8 }
    ensures { IfOk result (λ text. IsStretch reports.now heights number text) }
{
    let above = start_of(heights, number);
    let to = start_of(heights, number + 1);
    reports.text(alloc, Height(above), Height(to))
}

/// The texts of all stretches, each written by a thread of its own where one can be made.
fn stretches<R: Threads + Sync>(
    rt: &R,
    alloc: Global,
    reports: &Reports,
    heights: u64,
) -> Result<Vec<Result<Blob, AllocError>>, AllocError>
    ensures len { IfOk result (λ texts. vec_len texts ≡ 8) }
    ensures each { IfOk result (λ texts. (i : ℕ) (d : _) → i < 8
        → IfOk (slice_index_or texts.items i d) (λ text. IsStretch reports.now heights i text)) }
{
    let write = |number: usize| -> Result<Blob, AllocError>
        requires { number < 8 }
        ensures { IfOk result (λ text. IsStretch reports.entry.now heights number text) }
    { stretch_of(alloc, reports, heights, number) };
    thread::map_indices(rt, alloc, STRETCHES, &write)
}

/// Adds the text of a stretch.
fn add_stretch(stretch: &Result<Blob, AllocError>, text: &mut Blob) -> Result<(), AllocError>
    ensures more { OnOk result (IfOk stretch.now (λ more. text.new ≡ text.old ++ more)) }
    ensures there { OnOk result (IsOk stretch.now) }
{
    match stretch {
        Ok(more) => text.vec_mut().extend_from_slice(more.inner()),
        Err(_) => Err(AllocError),
    }
}

/// The text of the chunks of all heights up to one, by height and then shard.
pub(crate) fn chunks_text<R: Threads + Sync>(
    rt: &R,
    alloc: Global,
    reports: &Reports,
    heights: u64,
) -> Result<Blob, AllocError>
    ensures { IfOk result (λ text. text ≡ heights_text reports.now.shards (report_in reports.now) 0 heights) }
{
    let texts = stretches(rt, alloc, reports, heights)?;
    let mut text = Blob::of(Vec::new(alloc));
    for number in 0..STRETCHES {
        add_stretch(&texts[number], &mut text)?;
    }
    Ok(text)
}
