//! A run that is over.

ghost use Rattle.std.specs.Prelude.{◌≡◌, ◌<◌, ◌^◌, IfOk, SomeIff};
ghost use Rattle.std.specs.Option.{option_copied};
ghost use Rattle.nr_chunk.specs.Chain.{rules_of};
ghost use Rattle.nr_chunk.specs.Runs.{chain_in};
ghost use Rattle.nr_chunk.specs.Start.{start_tokens};
ghost use Rattle.nr_overlap.specs.Moment.{report_at};
ghost use Rattle.nr_overlap.specs.Outcome.{last_worlds, lists_left, reports_by_shard};
ghost use Rattle.nr_overlap.specs.Run.{ending};
ghost use Rattle.nr_places.specs.Totals.{tally_at};
ghost use Rattle.nr_report.specs.Lines.{totals_text};
ghost use Rattle.nr_outcome.specs.Props.{left_prop, told_prop, worlds_prop};
ghost use Rattle.nr_outcome.specs.Reports.{AreReports};
ghost use Rattle.nr_outcome.specs.Texts.{count_to, heights_text};
ghost use Rattle.nr_outcome.specs.Totals.{totals_at};

use crate::reports::{Reports, reports_of};
use crate::sums::{sum_lists, sum_reports, sum_worlds};
use crate::tallies::added;
use nr_bytes::{Blob, List};
use nr_chunk::{ChainRun, ChunkStore, ChunkWorld, Tally};
use nr_ids::{Height, ShardId};
use nr_overlap::{Closed, Core, Phases};
use nr_records::{ChunkResult, Receipt};
use nr_report::{Totals, write_totals};
use nr_state::Caller;
use std::alloc::{AllocError, Global};

/// Each list that no chunk takes, with its source, its height and its destination, in order of these three.
pub type Left = List<(ShardId, Height, ShardId, List<Receipt>)>;

/// A chain that was run to its end, and all that the serial run comes to.
#[derive(Drop)]
pub struct Outcome<C: Caller<ChunkStore>> {
    chain: ChainRun<C>,
    reports: Reports,
    /// The last world of each shard, in order of number.
    worlds: List<ChunkWorld>,
    left: Left,
    /// All tokens of the chain's start.
    supply: u128,
    ghost told: { AreReports (rules_of (chain_in chain)) reports } by { told_prop (rules_of (chain_in chain)) reports },
    ghost last: { worlds ≡ last_worlds (rules_of (chain_in chain)) } by { worlds_prop worlds (last_worlds (rules_of (chain_in chain))) },
    ghost rest: { left ≡ lists_left (rules_of (chain_in chain)) } by { left_prop left (lists_left (rules_of (chain_in chain))) },
    ghost first: { supply ≡ start_tokens chain.config chain.grounds.start },
}

/// An outcome, taken apart.
#[derive(Drop)]
pub struct Parts<C: Caller<ChunkStore>> {
    pub chain: ChainRun<C>,
    pub reports: Reports,
    /// The last world of each shard, in order of number.
    pub worlds: List<ChunkWorld>,
    pub left: Left,
}

impl<C: Caller<ChunkStore> + Drop> Outcome<C> {
    /// What a run came to, of which each shard gives its reports in order of height and its last world, all in order of
    /// shard. The supply is what the chain's start has in tokens.
    ///
    /// # Errors
    ///
    /// Where memory runs out. All is let go.
    pub fn new(
        alloc: Global,
        chain: ChainRun<C>,
        reports: List<List<ChunkResult>>,
        worlds: List<ChunkWorld>,
        left: Left,
        supply: u128,
    ) -> Result<Outcome<C>, AllocError>
        requires reports { reports ≡ reports_by_shard (rules_of (chain_in chain)) }
        requires worlds { worlds ≡ last_worlds (rules_of (chain_in chain)) }
        requires left { left ≡ lists_left (rules_of (chain_in chain)) }
        requires supply { supply ≡ start_tokens chain.config chain.grounds.start }
        ensures { IfOk result (λ outcome. outcome.chain ≡ chain) }
    {
        let reports = reports_of(alloc, &chain, reports)?;
        Ok(Outcome {
            chain,
            reports,
            worlds,
            left,
            supply,
        })
    }

    /// What a run came to that a core has made to its end. The supply is what the chain's start has in tokens.
    ///
    /// # Errors
    ///
    /// Where memory runs out, or a step met want of memory before. All is let go.
    pub fn closed(
        alloc: Global,
        core: Core<ChainRun<C>>,
        supply: u128,
    ) -> Result<Outcome<C>, AllocError>
        requires over { core.positions ≡ ending (rules_of (chain_in core.phases)) }
        requires supply { supply ≡ start_tokens core.phases.config core.phases.grounds.start }
        ensures { IfOk result (λ outcome. outcome.chain ≡ core.phases) }
    {
        let Closed {
            phases,
            reports,
            worlds,
            left,
        } = core.close()?;
        Outcome::new(alloc, phases, reports, worlds, left, supply)
    }
}

impl<C: Caller<ChunkStore>> Outcome<C> {
    /// The chain that was run.
    pub fn chain(&self) -> &ChainRun<C>
        ensures { result.now ≡ self.now.chain }
    {
        &self.chain
    }

    /// The reports of its chunks, which threads can share.
    pub fn reports(&self) -> &Reports
        ensures { AreReports (rules_of (chain_in self.now.chain)) result.now }
    {
        &self.reports
    }

    /// The report of a chunk. It is the serial run's, and `None` exactly where there is no such chunk. Heights count
    /// from 1, whatever lies below the first block.
    pub fn report(&self, shard: ShardId, height: Height) -> Option<&ChunkResult>
        ensures { let r = rules_of (chain_in self.now.chain) in option_copied result
            ≡ report_at r (ending r) shard.0 height.0 }
    {
        self.reports.report(shard, height)
    }

    /// How many chunks there are: `None` exactly where the number doesn't fit.
    pub fn chunk_count(&self) -> Option<u64>
        ensures { let r = rules_of (chain_in self.now.chain)
            in let count = count_to r.shards (report_at r (ending r)) r.heights
            in SomeIff result (count < 2 ^ 64) count }
    {
        self.reports.chunk_count()
    }

    /// The text of the chunks of the heights above one, up to another: by height and then shard. The text of two ranges
    /// of heights, one behind the other, is that of both.
    ///
    /// # Errors
    ///
    /// Where memory runs out.
    pub fn text(&self, alloc: Global, above: Height, to: Height) -> Result<Blob, AllocError>
        ensures { let r = rules_of (chain_in self.now.chain)
            in IfOk result (λ text. text ≡ heights_text r.shards (report_at r (ending r)) above.0 to.0) }
    {
        self.reports.text(alloc, above, to)
    }

    /// What all parts of the run hold: its last worlds, the lists that no chunk took, and what the chunks report.
    ///
    /// # Errors
    ///
    /// Where memory runs out. A sum that doesn't fit its number counts as that, and so do the counts of a report.
    pub fn tally(&self, alloc: Global) -> Result<Tally, AllocError>
        ensures { let x = chain_in self.now.chain in IfOk result (λ tally. tally ≡ tally_at x (ending (rules_of x))) }
    {
        let _ = self.chain.shards();
        let held = sum_worlds(alloc, &self.chain, self.worlds.inner())?;
        let told = sum_reports(&self.reports)?;
        let flying = sum_lists(&self.chain, self.left.inner())?;
        let both = added(held, told)?;
        let tally = added(both, flying)?;
        Ok(tally)
    }

    /// The totals of the run.
    ///
    /// # Errors
    ///
    /// As of [`tally`](Outcome::tally).
    pub fn totals(&self, alloc: Global) -> Result<Totals, AllocError>
        ensures { let x = chain_in self.now.chain
            in IfOk result (λ totals. totals ≡ totals_at x (ending (rules_of x))) }
    {
        let tally = self.tally(alloc)?;
        let places = tally.places;
        Ok(Totals {
            supply: self.supply,
            accounts: tally.accounts,
            receipts: tally.receipts,
            burnt: tally.burnt,
            places,
        })
    }

    /// The lines of the totals.
    ///
    /// # Errors
    ///
    /// As of [`tally`](Outcome::tally).
    pub fn totals_text(&self, alloc: Global) -> Result<Blob, AllocError>
        ensures { let x = chain_in self.now.chain
            in IfOk result (λ text. text ≡ totals_text (totals_at x (ending (rules_of x)))) }
    {
        let totals = self.totals(alloc)?;
        let mut text = Blob::of(Vec::new(alloc));
        write_totals(alloc, &totals, &mut text)?;
        Ok(text)
    }

    /// Takes the outcome apart.
    pub fn into_parts(self) -> Parts<C>
        ensures chain { result.chain ≡ self.chain }
        ensures reports { AreReports (rules_of (chain_in self.chain)) result.reports }
        ensures worlds { result.worlds ≡ last_worlds (rules_of (chain_in self.chain)) }
        ensures left { result.left ≡ lists_left (rules_of (chain_in self.chain)) }
    {
        let Outcome {
            chain,
            reports,
            worlds,
            left,
            supply: _,
        } = self;
        Parts {
            chain,
            reports,
            worlds,
            left,
        }
    }
}
