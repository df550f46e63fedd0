//! The bounds of a chunk that is run again.

ghost use Rattle.std.specs.Prelude.{◌≡◌, ◌+◌, ◌^◌, ◌&&◌, true, nat_le, sum_by, IfOk};
ghost use Rattle.nr_bytes.specs.Answers.{Gives};
ghost use Rattle.nr_fees.specs.Fees.{FitsIn};
ghost use Rattle.nr_state.specs.FromEntries.{AreWholeEntries, world_from};
ghost use Rattle.nr_state.specs.Tokens.{list_tokens};
ghost use Rattle.nr_state.specs.Valid.{IsValidWorld};
ghost use Rattle.nr_state.specs.World.{account_tokens};
ghost use Rattle.nr_recheck.specs.Bounds.{Counts, are_bounded, are_within, room};
ghost use Rattle.nr_recheck.specs.Rechecking.{asked, memory_fault};
ghost use Rattle.nr_recheck.specs.declared.fault.RecheckFault.TheVariants.{Bounds};

use crate::fault::RecheckFault;
use nr_bytes::List;
use nr_columns::Entry;
use nr_config::Config;
use nr_fees::receipt_tokens;
use nr_records::{Account, Receipt};
use nr_state::ShardState;
use nr_state::listings::{accounts, delayed, postponed, served};
use nr_store::PlainStore;
use std::alloc::{AllocError, Global};

/// How many tokens there may be.
const MOST_TOKENS: u128 = 1 << 127;

/// How many receipts may ever have been delayed.
const MOST_DELAYED: u64 = 1 << 63;

/// The tokens of a list; none where a receipt's gas price or prepaid gas doesn't fit, or the sum.
fn tokens_in(config: &Config, list: &[Receipt]) -> Option<u128>
    ensures { Counts result (are_bounded config.now list.now) (list_tokens config.now list.now) }
{
    let mut sum: u128 = 0;
    for receipt in list {
        let tokens = receipt_tokens(config, receipt)?;
        sum = sum.checked_add(tokens)?;
    }
    Some(sum)
}

fn tokens_held(list: &[Account]) -> Option<u128>
    ensures { FitsIn 128 result (sum_by account_tokens list.now) }
{
    let mut sum: u128 = 0;
    for account in list {
        let tokens = account.amount.checked_add(account.locked)?;
        sum = sum.checked_add(tokens)?;
    }
    Some(sum)
}

/// The tokens of receipts that wait.
fn tokens_waiting(config: &Config, postponed: &[Receipt], delayed: &[Receipt]) -> Option<u128>
    ensures { Counts result (are_bounded config.now postponed.now && are_bounded config.now delayed.now)
        (list_tokens config.now postponed.now + list_tokens config.now delayed.now) }
{
    let first = tokens_in(config, postponed)?;
    let second = tokens_in(config, delayed)?;
    first.checked_add(second)
}

fn is_at_most(first: u128, second: u128, third: u128) -> bool
    ensures { result ≡ nat_le (first + second + third) (2 ^ 127) }
{
    match first.checked_add(second) {
        Some(sum) => sum <= MOST_TOKENS && third <= MOST_TOKENS - sum,
        None => false,
    }
}

/// Whether what accounts have, what waits and what is taken fit together.
fn has_room(held: Option<u128>, waiting: Option<u128>, taken: Option<u128>) -> bool
    ensures { result ≡ room held waiting taken }
{
    match (held, waiting, taken) {
        (Some(held), Some(waiting), Some(taken)) => is_at_most(held, waiting, taken),
        _ => false,
    }
}

fn both(first: bool, second: bool) -> bool
    ensures { result ≡ (first && second) }
{
    first && second
}

fn is_few(served: u64, waiting: usize) -> bool
    ensures { result ≡ nat_le (served + waiting) (2 ^ 63) }
{
    let waiting = waiting as u64;
    served <= MOST_DELAYED && waiting <= MOST_DELAYED - served
}

/// Whether the chunk keeps within its bounds on the world of a state.
fn is_within(
    alloc: Global,
    config: &Config,
    state: &ShardState<PlainStore>,
    taken: &[Receipt],
) -> Result<bool, AllocError>
    requires whole { state.now.whole ≡ true }
    requires valid { IsValidWorld config.now state.now.world }
    ensures { IfOk result (λ within. within ≡ are_within config.now taken.now state.now.world) }
{
    let held = accounts(alloc, state)?;
    let postponed = postponed(alloc, state)?;
    let delayed = delayed(alloc, state)?;
    let served = served(state)?;
    let waiting = tokens_waiting(config, postponed.inner(), delayed.inner());
    let room = has_room(tokens_held(held.inner()), waiting, tokens_in(config, taken));
    let few = is_few(served, delayed.inner().len());
    Ok(both(room, few))
}

/// Refuses a chunk that passes its bounds.
pub(crate) fn check_bounds(
    alloc: Global,
    config: &Config,
    entries: &List<Entry>,
    taken: &[Receipt],
) -> Result<(), RecheckFault>
    requires whole { AreWholeEntries entries.now }
    requires valid { IsValidWorld config.now (world_from entries.now) }
    ensures { Gives memory_fault result (asked (are_within config.now taken.now (world_from entries.now)) Bounds) }
{
    let state = ShardState::from_entries(alloc, PlainStore::new(alloc), config, entries)?;
    if is_within(alloc, config, &state, taken)? {
        Ok(())
    } else {
        Err(RecheckFault::Bounds)
    }
}
