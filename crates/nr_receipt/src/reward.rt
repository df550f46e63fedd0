//! The reward of an account whose code ran.

ghost use Rattle.std.specs.Prelude.{◌≡◌, ◌+◌, ◌*◌, ◌^◌, ◌<◌, ◌≤◌, true, false, IfOk, OnOk};
ghost use Rattle.nr_actions.specs.Actions.{HasRoom};
ghost use Rattle.nr_ids.specs.Grammar.{is_system};
ghost use Rattle.nr_receipt.specs.Frames.{burning_price};
ghost use Rattle.nr_receipt.specs.Rewards.{reward_gas, reward_of, with_reward, reward_paid};
ghost use Rattle.nr_state.specs.View.{with_world};

use crate::gas::tokens_burnt;
use nr_actions::Frame;
use nr_config::Config;
use nr_config::entries::{REWARD_DENOMINATOR, REWARD_NUMERATOR};
use nr_ids::AccountId;
use nr_records::Account;
use nr_state::ShardState;
use nr_triedef::Store;
use std::alloc::AllocError;

/// The part of burnt gas that is a reward, rounded down.
fn reward_gas(config: &Config, burnt: u64) -> u64
    ensures value { result ≡ reward_gas config.now burnt }
    ensures less { result ≤ burnt }
{
    let part = u128::from(config.entry(REWARD_NUMERATOR));
    let whole = u128::from(config.entry(REWARD_DENOMINATOR));
    (u128::from(burnt) * part / whole) as u64
}

/// The reward, in tokens, for the gas that all calls of the receipt burnt.
pub(crate) fn reward_of(config: &Config, frame: &Frame) -> u128
    requires burnt { is_system frame.now.predecessor ≡ false → frame.now.call_burnt < 2 ^ 64 }
    ensures value { result ≡ reward_of config.now frame.now }
    ensures less { result ≤ frame.now.call_burnt * burning_price frame.now }
{
    if frame.predecessor.is_system() {
        return 0;
    }
    tokens_burnt(frame, reward_gas(config, frame.call_burnt as u64))
}

/// Gives the account the reward, where it stands, and tells what was paid.
pub(crate) fn pay_reward<S: Store>(
    state: &mut ShardState<S>,
    id: &AccountId,
    reward: u128,
) -> Result<u128, AllocError>
    requires whole { state.old.whole ≡ true }
    requires room { HasRoom state.old.world id.now reward }
    ensures paid { IfOk result (λ paid. paid ≡ reward_paid state.old.world id.now reward) }
    ensures ok { OnOk result (state.new ≡ with_world state.old (with_reward state.old.world id.now reward)) }
{
    if reward == 0 {
        return Ok(0);
    }
    let Some(account) = state.account(id)? else {
        return Ok(0);
    };
    let amount = account.amount + reward;
    state.set_account(id, &Account { amount, ..account })?;
    Ok(reward)
}
