//! The gas of a receipt: what was paid for, what is burnt, and the tokens for it. A receipt from the
//! system has none.

ghost use Rattle.std.specs.Prelude.{◌≡◌, ◌*◌, ◌^◌, ◌<◌};
ghost use Rattle.nr_actions.specs.Calling.{price_of};
ghost use Rattle.nr_receipt.specs.Frames.{prepaid, burnt_gas, burning_price, gas_back};

use nr_actions::Frame;
use nr_config::Config;
use nr_fees::{exec_gas_of, prepaid_gas};

/// The gas that was paid for.
fn prepaid(config: &Config, frame: &Frame) -> u64
    requires { prepaid config.now frame.now < 2 ^ 64 }
    ensures { result ≡ prepaid config.now frame.now }
{
    if frame.predecessor.is_system() {
        return 0;
    }
    match prepaid_gas(config, &frame.act.actions) {
        Some(gas) => gas,
        None => unreachable!(),
    }
}

/// The gas that is burnt once so many actions were begun.
pub(crate) fn burnt_gas(config: &Config, frame: &Frame, begun: usize) -> u64
    requires { burnt_gas config.now frame.now begun < 2 ^ 64 }
    ensures { result ≡ burnt_gas config.now frame.now begun }
{
    if frame.predecessor.is_system() {
        return 0;
    }
    let actions = frame.act.actions.inner();
    let begun = begun.min(actions.len());
    match exec_gas_of(config, &actions[..begun]) {
        Some(fees) => fees + frame.call_burnt as u64,
        None => unreachable!(),
    }
}

/// The tokens that gas was bought for, at the receipt's price.
fn tokens_paid(frame: &Frame, gas: u64) -> u128
    requires { frame.now.act.gas_price < 2 ^ 64 }
    ensures { result ≡ gas * price_of frame.now }
{
    if frame.predecessor.is_system() {
        return 0;
    }
    u128::from(gas) * frame.act.gas_price
}

/// The tokens for a unit of burnt gas: the receipt's price, or the block's where that is less.
fn burning_price(frame: &Frame) -> u64
    ensures { result ≡ burning_price frame.now }
{
    if frame.predecessor.is_system() {
        return 0;
    }
    frame.act.gas_price.min(u128::from(frame.place.price)) as u64
}

/// The tokens for burnt gas.
pub(crate) fn tokens_burnt(frame: &Frame, gas: u64) -> u128
    ensures { result ≡ gas * burning_price frame.now }
{
    u128::from(gas) * u128::from(burning_price(frame))
}

/// What goes back of the tokens for gas, where so much is burnt: what was paid for gas that isn't
/// promised, less what is burnt.
pub(crate) fn gas_back(config: &Config, frame: &Frame, burnt: u64) -> u128
    requires price { frame.now.act.gas_price < 2 ^ 64 }
    requires prepaid { prepaid config.now frame.now < 2 ^ 64 }
    ensures { result ≡ gas_back config.now frame.now burnt }
{
    let unpromised = u128::from(prepaid(config, frame)).saturating_sub(frame.promised) as u64;
    tokens_paid(frame, unpromised).saturating_sub(tokens_burnt(frame, burnt))
}
