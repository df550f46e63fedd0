//! The tokens of a world.

ghost use Rattle.std.specs.Prelude.{◌≡◌, sum_by};
ghost use Rattle.nr_fees.specs.Fees.{FitsIn};
ghost use Rattle.nr_state.specs.World.{account_tokens};
ghost use Rattle.nr_worlds.specs.Tests.{Adds, are_bounded};

use nr_config::Config;
use nr_fees::receipt_tokens;
use nr_records::{Account, Receipt};

/// The most tokens of a world.
const MOST: u128 = 1 << 127;

/// The tokens of accounts; `None` where they are 2^128 or more.
fn of_accounts(accounts: &[Account]) -> Option<u128>
    ensures { FitsIn 128 result (sum_by account_tokens accounts.now) }
{
    let mut sum: u128 = 0;
    let mut rest = accounts;
    while let [account, after @ ..] = rest {
        let tokens = account.amount.checked_add(account.locked)?;
        sum = sum.checked_add(tokens)?;
        rest = after;
    }
    Some(sum)
}

/// The tokens before and those of receipts; `None` where a gas price or prepaid gas is 2^64 or more,
/// or the tokens are 2^128 or more.
fn with_receipts(config: &Config, before: u128, receipts: &[Receipt]) -> Option<u128>
    ensures { Adds config.now before receipts.now result }
{
    let mut sum = before;
    let mut rest = receipts;
    while let [receipt, after @ ..] = rest {
        sum = sum.checked_add(receipt_tokens(config, receipt)?)?;
        rest = after;
    }
    Some(sum)
}

/// Whether the gas price and the prepaid gas of each receipt are below 2^64, and the tokens of
/// accounts and receipts are at most 2^127.
#[tactic(auto, using(crate::proofs::Adding::over_accounts, crate::proofs::Adding::over_postponed, crate::proofs::Adding::over_delayed, crate::proofs::Adding::all_tokens))]
pub(crate) fn tokens_fit(
    config: &Config,
    accounts: &[Account],
    postponed: &[Receipt],
    delayed: &[Receipt],
) -> bool
    ensures { result ≡ are_bounded config.now accounts.now postponed.now delayed.now }
{
    let Some(own) = of_accounts(accounts) else {
        return false;
    };
    let Some(kept) = with_receipts(config, own, postponed) else {
        return false;
    };
    let Some(all) = with_receipts(config, kept, delayed) else {
        return false;
    };
    all <= MOST
}
