//! The reports of a run that is over.

ghost use Rattle.std.specs.Prelude.{◌≡◌, IfOk};
ghost use Rattle.std.specs.Option.{option_copied};
ghost use Rattle.nr_chunk.specs.Chain.{rules_of};
ghost use Rattle.nr_chunk.specs.Runs.{chain_in};
ghost use Rattle.nr_overlap.specs.Outcome.{reports_by_shard};
ghost use Rattle.nr_outcome.specs.Reports.{AreReports, report_in};

use crate::rows::{cell, rows_of};
use nr_bytes::List;
use nr_chunk::{ChainRun, ChunkStore};
use nr_ids::{Height, ShardId};
use nr_overlap::Phases;
use nr_records::ChunkResult;
use nr_state::Caller;
use std::alloc::{AllocError, Global};

/// The reports of the chunks of a run that is over, by shard and height. Heights count from 1, whatever lies below the
/// first block. A gap takes a few bytes.
#[derive(Drop)]
pub struct Reports {
    pub(crate) shards: u32,
    pub(crate) heights: u64,
    /// By shard, and then height from 1, with a gap where there is no chunk.
    rows: Vec<Vec<Option<Box<ChunkResult>>>>,
}

impl Reports {
    /// The report of a chunk: `None` exactly where there is no such chunk.
    pub fn report(&self, shard: ShardId, height: Height) -> Option<&ChunkResult>
        ensures { option_copied result ≡ report_in self.now shard.0 height.0 }
    {
        match height.0 {
            0 => None,
            number => cell(&self.rows, shard.0, number - 1),
        }
    }
}

/// The reports of a chain that was run to its end, of which each shard has a list in order of height.
pub(crate) fn reports_of<C: Caller<ChunkStore>>(
    alloc: Global,
    chain: &ChainRun<C>,
    reports: List<List<ChunkResult>>,
) -> Result<Reports, AllocError>
    requires { reports ≡ reports_by_shard (rules_of (chain_in chain.now)) }
    ensures { IfOk result (AreReports (rules_of (chain_in chain.now))) }
{
    let rows = rows_of(alloc, chain, reports)?;
    Ok(Reports {
        shards: chain.shards(),
        heights: chain.heights(),
        rows,
    })
}
