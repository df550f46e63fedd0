//! What a transaction costs its signer.

ghost use Rattle.std.specs.Prelude.{◌≡◌, ◌+◌, ◌*◌};
ghost use Rattle.nr_fees.specs.Fees.{FitsIn, exec_gas, attached_gas};
ghost use Rattle.nr_txconvert.specs.Costs.{sending_gas};
ghost use Rattle.nr_txconvert.specs.Parts.{CountsCost};

use nr_config::Config;
use nr_fees::{attached_gas, deposits, exec_gas, send_gas};
use nr_records::Transaction;

/// What a transaction costs.
#[derive(Clone, Copy, Debug)]
pub(crate) struct Cost {
    /// The gas that sending the receipt burns.
    pub(crate) sending: u64,
    /// The tokens for all gas.
    pub(crate) gas: u128,
    /// The tokens for all gas, and all deposits.
    pub(crate) whole: u128,
}

/// The tokens for gas at a price.
#[tactic(auto, using(crate::proofs::Costing::paid_small))]
pub(crate) fn price_of(gas: u64, price: u64) -> u128
    ensures { result ≡ gas * price }
{
    u128::from(gas) * u128::from(price)
}

fn sending_gas(config: &Config, tx: &Transaction) -> Option<u64>
    ensures { FitsIn 64 result (sending_gas config.now tx.now) }
{
    send_gas(config, &tx.actions, tx.signer == tx.receiver)
}

/// Gas for sending, and with it the gas to execute and the attached gas.
fn with_executing(config: &Config, tx: &Transaction, sending: u64) -> Option<u64>
    ensures { FitsIn 64 result (sending + exec_gas config.now tx.now.actions + attached_gas tx.now.actions) }
{
    let executing = exec_gas(config, &tx.actions)?;
    let attached = attached_gas(&tx.actions)?;
    sending.checked_add(executing)?.checked_add(attached)
}

/// What a transaction costs at a price for gas. `None` exactly where its gas doesn't fit in 64 bits,
/// or the whole in 128.
pub(crate) fn cost_of(config: &Config, tx: &Transaction, price: u64) -> Option<Cost>
    ensures { CountsCost result config.now tx.now price }
{
    let sending = sending_gas(config, tx)?;
    let gas = price_of(with_executing(config, tx, sending)?, price);
    let whole = gas.checked_add(deposits(&tx.actions)?)?;
    Some(Cost {
        sending,
        gas,
        whole,
    })
}
