//! How many chunks a run has that is over.

ghost use Rattle.std.specs.Prelude.{◌≡◌, ◌≤◌, ◌<◌, ◌^◌, SomeIff};
ghost use Rattle.nr_outcome.specs.Reports.{report_in};
ghost use Rattle.nr_outcome.specs.Texts.{count_at, count_to, one_if_there};

use crate::reports::Reports;
use nr_ids::{Height, ShardId};

/// 1 where a shard has a chunk at a height, else 0.
fn count_chunk(reports: &Reports, shard: ShardId, height: Height) -> u64
    ensures count { result ≡ one_if_there (report_in reports.now shard.0 height.0) }
    ensures one { result ≤ 1 }
{
    match reports.report(shard, height) {
        Some(_) => 1,
        None => 0,
    }
}

/// How many chunks a height has.
fn count_height(reports: &Reports, height: Height) -> u64
    ensures { result ≡ count_at reports.now.shards (report_in reports.now) height.0 }
{
    let mut count = 0;
    for shard in 0..reports.shards {
        count += count_chunk(reports, ShardId(shard), height);
    }
    count
}

impl Reports {
    /// How many chunks there are: `None` exactly where the number doesn't fit.
    pub fn chunk_count(&self) -> Option<u64>
        ensures { let count = count_to self.now.shards (report_in self.now) self.now.heights
            in SomeIff result (count < 2 ^ 64) count }
    {
        let mut count: u64 = 0;
        for below in 0..self.heights {
            count = count.checked_add(count_height(self, Height(below + 1)))?;
        }
        Some(count)
    }
}
