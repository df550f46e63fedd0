//! What the parts of a run hold.

ghost use Rattle.std.specs.Prelude.{◌≡◌, ◌+◌, ◌≤◌, ◌<◌, ◌^◌, true, IfOk, SomeIff, count_by, sum_by};
ghost use Rattle.nr_chunk.specs.Chain.{AreBounded, IsCountable, working_tokens};
ghost use Rattle.nr_chunk.specs.Tallies.{is_sent, executions, tally_list, tally_report, tally_state};
ghost use Rattle.nr_chunk.specs.Tallies.{tally_working, tally_world};
ghost use Rattle.nr_state.specs.Tokens.{list_tokens};
ghost use Rattle.nr_state.specs.Valid.{IsBounded, IsValidWorld};
ghost use Rattle.nr_state.specs.World.{account_tokens};
ghost use Rattle.nr_fees.specs.Fees.{receipt_tokens};

use crate::chain::ChainRun;
use crate::chunk_work::ChunkWork;
use crate::chunk_world::ChunkWorld;
use crate::state::{ChunkStore, State};
use nr_bytes::List;
use nr_config::Config;
use nr_fees::receipt_tokens;
use nr_records::{Account, ChunkLine, ChunkResult, Receipt};
use nr_state::Caller;
use nr_state::listings::{accounts, delayed, postponed};
use std::alloc::{AllocError, Global};

/// What a part of a run holds. Tokens are in the ledger's smallest unit.
#[derive(Clone, Copy, Debug, PartialEq, Eq)]
pub struct Tally {
    /// What accounts have.
    pub accounts: u128,
    /// What receipts hold that aren't executed.
    pub receipts: u128,
    pub burnt: u128,
    /// The receipts that were routed, executed, postponed, delayed, and are in flight.
    pub places: [u64; 5],
}

/// The tokens of a receipt.
fn tokens_of(config: &Config, receipt: &Receipt) -> u128
    requires bounded { IsBounded config.now receipt.now }
    requires fits { receipt_tokens config.now receipt.now ≤ 2 ^ 127 }
    ensures { result ≡ receipt_tokens config.now receipt.now }
{
    receipt_tokens(config, receipt).unwrap_or(0)
}

/// The tokens of a list.
fn tokens_in(config: &Config, list: &[Receipt]) -> u128
    requires bounded { AreBounded config.now list.now }
    requires fits { list_tokens config.now list.now ≤ 2 ^ 127 }
    ensures { result ≡ list_tokens config.now list.now }
{
    let mut sum = 0;
    for receipt in list {
        sum += tokens_of(config, receipt);
    }
    sum
}

/// The tokens of accounts.
fn tokens_held(list: &[Account]) -> u128
    requires fits { sum_by account_tokens list.now ≤ 2 ^ 127 }
    ensures { result ≡ sum_by account_tokens list.now }
{
    let mut sum = 0;
    for account in list {
        sum += account.amount + account.locked;
    }
    sum
}

fn executions(lines: &[ChunkLine]) -> u64
    ensures { result ≡ executions lines.now }
{
    lines
        .iter()
        .filter(|line| {
            matches!(
                line,
                ChunkLine::Run(_) | ChunkLine::Received(_) | ChunkLine::Lost(_)
            )
        })
        .count() as u64
}

fn sent(lines: &[ChunkLine]) -> u64
    ensures { result ≡ count_by is_sent lines.now }
{
    lines
        .iter()
        .filter(|line| matches!(line, ChunkLine::Sent { .. }))
        .count() as u64
}

/// What a sealed chunk burnt, routed and executed: `None` exactly where it routed more receipts than its number holds.
pub fn tally_report(report: &ChunkResult) -> Option<Tally>
    ensures { SomeIff result (report.now.local + count_by is_sent report.now.lines < 2 ^ 64) (tally_report report.now) }
{
    let lines = report.lines.inner();
    let routed = report.local.checked_add(sent(lines))?;
    Some(Tally {
        accounts: 0,
        receipts: 0,
        burnt: report.burnt,
        places: [routed, executions(lines), 0, 0, 0],
    })
}

/// What a state holds.
fn tally_state(alloc: Global, config: &Config, state: &State) -> Result<Tally, AllocError>
    requires whole { state.now.whole ≡ true }
    requires valid { IsValidWorld config.now state.now.world }
    ensures { IfOk result (λ tally. tally ≡ tally_state config.now state.now.world) }
{
    let postponed = postponed(alloc, state)?;
    let delayed = delayed(alloc, state)?;
    let held = accounts(alloc, state)?;
    let waiting = tokens_in(config, postponed.inner()) + tokens_in(config, delayed.inner());
    let counts = [
        0,
        0,
        postponed.inner().len() as u64,
        delayed.inner().len() as u64,
        0,
    ];
    Ok(Tally {
        accounts: tokens_held(held.inner()),
        receipts: waiting,
        burnt: 0,
        places: counts,
    })
}

impl<C: Caller<ChunkStore>> ChainRun<C> {
    /// What a world holds, what its shard carries with it.
    ///
    /// # Errors
    ///
    /// Where memory runs out.
    pub fn tally_world(&self, alloc: Global, world: &ChunkWorld) -> Result<Tally, AllocError>
        requires { IsCountable self.now.config world.now }
        ensures { IfOk result (λ tally. tally ≡ tally_world self.now.config world.now) }
    {
        let held = tally_state(alloc, &self.config, &world.state)?;
        let carried = world.carried.inner();
        let [_, _, postponed, delayed, _] = held.places;
        Ok(Tally {
            receipts: held.receipts + tokens_in(&self.config, carried),
            places: [0, 0, postponed, delayed, carried.len() as u64],
            ..held
        })
    }

    /// What a chunk at work holds, receipts that it made and that aren't sealed with it.
    ///
    /// # Errors
    ///
    /// Where memory runs out.
    pub fn tally_working(&self, alloc: Global, working: &ChunkWork) -> Result<Tally, AllocError>
        requires whole { working.now.whole ≡ true }
        requires valid { IsValidWorld self.now.config working.now.world }
        requires bounded { AreBounded self.now.config working.now.outgoing }
        requires room { working_tokens self.now.config working.now ≤ 2 ^ 127 }
        ensures { IfOk result (λ tally. tally ≡ tally_working self.now.config working.now) }
    {
        let work = &working.work;
        let held = tally_state(alloc, &self.config, &work.state)?;
        let made = tokens_in(&self.config, &work.outgoing);
        let [_, _, postponed, delayed, _] = held.places;
        Ok(Tally {
            receipts: held.receipts + made,
            burnt: work.burnt,
            places: [work.local, executions(&work.lines), postponed, delayed, 0],
            ..held
        })
    }

    /// What a list in flight holds.
    pub fn tally_list(&self, list: &List<Receipt>) -> Tally
        requires bounded { AreBounded self.now.config list.now }
        requires room { list_tokens self.now.config list.now ≤ 2 ^ 127 }
        ensures { result ≡ tally_list self.now.config list.now }
    {
        Tally {
            accounts: 0,
            receipts: tokens_in(&self.config, list.inner()),
            burnt: 0,
            places: [0, 0, 0, 0, list.inner().len() as u64],
        }
    }
}
