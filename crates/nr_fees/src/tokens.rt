//! What a receipt holds.

ghost use Rattle.nr_fees.specs.Fees.{FitsIn, CountsTokens, act_gas, act_tokens, price_of, gas_of, receipt_tokens};

use crate::sums::{deposits, prepaid_gas};
use nr_bytes::List;
use nr_config::Config;
use nr_records::{Action, ActionReceipt, Body, Receipt};

/// The gas that counts as prepaid: none for a refund.
fn act_gas(config: &Config, refund: bool, actions: &List<Action>) -> Option<u64>
    ensures { FitsIn 64 result (act_gas config.now refund actions.now) }
{
    if refund {
        Some(0)
    } else {
        prepaid_gas(config, actions)
    }
}

fn act_tokens(config: &Config, refund: bool, act: &ActionReceipt) -> Option<u128>
    ensures { CountsTokens result act.now.gas_price (act_gas config.now refund act.now.actions)
        (act_tokens config.now refund act.now) }
{
    let price = u64::try_from(act.gas_price).ok()?;
    let gas = act_gas(config, refund, &act.actions)?;
    let paid = u128::from(gas).checked_mul(u128::from(price))?;
    deposits(&act.actions)?.checked_add(paid)
}

/// The tokens of a receipt, in the smallest unit of the ledger: the deposits of its actions, and
/// its prepaid gas at its gas price. Prepaid gas is what executing its actions burns, and the gas
/// attached to them; a receipt from `system` has none. A datum holds no tokens.
///
/// `None` exactly where a receipt of actions has a gas price of 2^64 or more, prepaid gas of 2^64 or
/// more, or tokens of 2^128 or more. The bound on the price holds for a receipt from `system` too.
pub fn receipt_tokens(config: &Config, receipt: &Receipt) -> Option<u128>
    ensures { CountsTokens result (price_of receipt.now) (gas_of config.now receipt.now)
        (receipt_tokens config.now receipt.now) }
{
    match &receipt.body {
        Body::Act(act) => act_tokens(config, receipt.predecessor.is_system(), act),
        Body::Datum(_) => Some(0),
    }
}
