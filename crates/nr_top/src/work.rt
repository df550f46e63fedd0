//! What a command runs.

ghost use Rattle.std.specs.Prelude.{◌≡◌, IfOk};
ghost use Rattle.nr_top.specs.Works.{CanWork, work_text};

use crate::generated::generated;
use crate::run::report;
use nr_bytes::Blob;
use nr_chainfiles::ChainFiles;
use std::alloc::{AllocError, Global};

/// What is run to its end.
#[derive(Drop)]
pub enum Work {
    /// The run that the files of a chain give.
    Chain(ChainFiles),
    /// The chain that these numbers generate, from 1 to 16 shards and from 1 to 256 blocks.
    Generated {
        start: u64,
        shards: u32,
        blocks: u64,
    },
}

/// Runs a chain block after block, and makes the text that is written of it.
pub(crate) fn run_work(alloc: Global, work: Work) -> Result<Blob, AllocError>
    requires { CanWork work }
    ensures { IfOk result (λ text. text ≡ work_text work) }
{
    match work {
        Work::Chain(files) => report(alloc, files),
        Work::Generated {
            start,
            shards,
            blocks,
        } => generated(alloc, start, shards, blocks),
    }
}
