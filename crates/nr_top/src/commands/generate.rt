//! `gen NUMBER SHARDS BLOCKS`.

ghost use Rattle.nr_shell.specs.Answers.{Makes};
ghost use Rattle.nr_top.specs.Generated.{generated_text};
ghost use Rattle.nr_top.specs.Works.{IsRight, Runs};
ghost use Rattle.nr_words.specs.Words.{CanGenerate};

use crate::status::Status;
use crate::work::Work;
use nr_bytes::Blob;
use nr_shell::Stop;
use std::alloc::AllocError;

/// Generates a chain, runs it to its end, and makes the text.
#[inline(never)]
pub(crate) fn generate_text<F: Fn(Work) -> Result<Blob, AllocError>>(
    run: &F,
    start: u64,
    shards: u32,
    blocks: u64,
) -> Result<Blob, Stop<Status>>
    requires numbers { CanGenerate shards blocks }
    requires can { Runs (F.pre run.now) }
    requires right { IsRight (F.post run.now) }
    ensures { Makes result (generated_text start shards blocks) }
{
    let work = Work::Generated {
        start,
        shards,
        blocks,
    };
    match run(work) {
        Ok(text) => Ok(text),
        Err(_) => Err(Stop::Memory),
    }
}
