//! What the parts of a run that is over hold together.

ghost use Rattle.std.specs.Prelude.{◌≡◌, ◌^◌, ◌≤◌, IfOk};
ghost use Rattle.std.specs.List.{AllByRecursion};
ghost use Rattle.nr_chunk.specs.Chain.{AreBounded, IsCountable};
ghost use Rattle.nr_chunk.specs.Tallies.{tally_list, tally_world};
ghost use Rattle.nr_state.specs.Tokens.{list_tokens};
ghost use Rattle.nr_outcome.specs.Reports.{report_in};
ghost use Rattle.nr_outcome.specs.Sums.{row_tally, sum_of, table_tally};

use crate::reports::Reports;
use crate::tallies::{add_report, added, no_tally};
use nr_bytes::List;
use nr_chunk::{ChainRun, ChunkStore, ChunkWorld, Tally};
use nr_ids::{Height, ShardId};
use nr_records::Receipt;
use nr_state::Caller;
use std::alloc::{AllocError, Global};

/// What the worlds of shards hold.
pub(crate) fn sum_worlds<C: Caller<ChunkStore>>(
    alloc: Global,
    chain: &ChainRun<C>,
    worlds: &[ChunkWorld],
) -> Result<Tally, AllocError>
    requires { AllByRecursion (IsCountable chain.now.config) worlds.now }
    ensures { IfOk result (λ sum. sum ≡ sum_of (λ w. tally_world chain.now.config w) worlds.now) }
{
    let mut sum = no_tally();
    for world in worlds {
        sum = added(sum, chain.tally_world(alloc, world)?)?;
    }
    Ok(sum)
}

/// What the chunks of a shard did.
#[tactic(auto, unfolding(nr_places::specs::Totals::tally_below))]
fn sum_row(reports: &Reports, shard: ShardId) -> Result<Tally, AllocError>
    ensures { IfOk result (λ sum. sum ≡ row_tally reports.now.heights (report_in reports.now shard.0)) }
{
    let mut sum = no_tally();
    for below in 0..reports.heights {
        sum = add_report(sum, reports.report(shard, Height(below + 1)))?;
    }
    Ok(sum)
}

/// What the chunks of all shards did.
#[tactic(auto, unfolding(nr_places::specs::Totals::tally_below))]
pub(crate) fn sum_reports(reports: &Reports) -> Result<Tally, AllocError>
    ensures { IfOk result (λ sum. sum ≡ table_tally reports.now.shards reports.now.heights (report_in reports.now)) }
{
    let mut sum = no_tally();
    for shard in 0..reports.shards {
        let more = sum_row(reports, ShardId(shard))?;
        sum = added(sum, more)?;
    }
    Ok(sum)
}

/// What lists hold that no chunk took.
pub(crate) fn sum_lists<C: Caller<ChunkStore>>(
    chain: &ChainRun<C>,
    left: &[(ShardId, Height, ShardId, List<Receipt>)],
) -> Result<Tally, AllocError>
    requires bounded { AllByRecursion (λ l. AreBounded chain.now.config l.3) left.now }
    requires small { AllByRecursion (λ l. list_tokens chain.now.config l.3 ≤ 2 ^ 127) left.now }
    ensures { IfOk result (λ sum. sum ≡ sum_of (λ l. tally_list chain.now.config l.3) left.now) }
{
    let mut sum = no_tally();
    for sent in left {
        sum = added(sum, chain.tally_list(&sent.3))?;
    }
    Ok(sum)
}
