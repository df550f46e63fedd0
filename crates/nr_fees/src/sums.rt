//! What a list of actions costs and carries.

ghost use Rattle.std.specs.Prelude.{◌≡◌, sum_by};
ghost use Rattle.nr_fees.specs.Fees.{FitsIn, attached, deposit_of, action_fee, receipt_gas, send_gas, exec_gas};
ghost use Rattle.nr_fees.specs.Fees.{attached_gas, deposits, prepaid_gas};

use crate::pricing::{action_fee, fee_of};
use crate::table::{Fee, Payment};
use nr_bytes::List;
use nr_config::Config;
use nr_records::Action;

/// The gas that an action's call may burn: 0 for any other action.
pub fn attached_to(action: &Action) -> u64
    ensures { result ≡ attached action.now }
{
    match action {
        Action::FunctionCall { gas, .. } => *gas,
        _ => 0,
    }
}

/// The deposit of a call or a transfer, in the smallest unit of the ledger: 0 for any other action.
pub fn deposit_in(action: &Action) -> u128
    ensures { result ≡ deposit_of action.now }
{
    match action {
        Action::FunctionCall { deposit, .. } | Action::Transfer { deposit } => *deposit,
        _ => 0,
    }
}

fn sum_of_fees(config: &Config, payment: Payment, actions: &[Action]) -> Option<u64>
    ensures { FitsIn 64 result (sum_by (action_fee config.now payment) actions.now) }
{
    let mut sum: u64 = 0;
    for action in actions {
        let cost = action_fee(config, payment, action)?;
        sum = sum.checked_add(cost)?;
    }
    Some(sum)
}

fn receipt_gas(config: &Config, payment: Payment, actions: &[Action]) -> Option<u64>
    ensures { FitsIn 64 result (receipt_gas config.now payment actions.now) }
{
    let sum = sum_of_fees(config, payment, actions)?;
    fee_of(config, payment, Fee::ActionReceipt).checked_add(sum)
}

fn sum_of_attached(actions: &[Action]) -> Option<u64>
    ensures { FitsIn 64 result (attached_gas actions.now) }
{
    let mut sum: u64 = 0;
    for action in actions {
        sum = sum.checked_add(attached_to(action))?;
    }
    Some(sum)
}

fn sum_of_deposits(actions: &[Action]) -> Option<u128>
    ensures { FitsIn 128 result (deposits actions.now) }
{
    let mut sum: u128 = 0;
    for action in actions {
        sum = sum.checked_add(deposit_in(action))?;
    }
    Some(sum)
}

/// The gas that sending a receipt of these actions burns: the send fee of a receipt, and those of
/// the actions. `local` says that the sender is the receiver.
///
/// `None` exactly where that is 2^64 or more.
pub fn send_gas(config: &Config, actions: &List<Action>, local: bool) -> Option<u64>
    ensures { FitsIn 64 result (send_gas config.now local actions.now) }
{
    let payment = if local {
        Payment::SendLocal
    } else {
        Payment::SendRemote
    };
    receipt_gas(config, payment, actions.inner())
}

/// The gas that executing a receipt of these actions burns, calls left out: the execution fee of a
/// receipt, and those of the actions.
///
/// `None` exactly where that is 2^64 or more.
pub fn exec_gas_of(config: &Config, actions: &[Action]) -> Option<u64>
    ensures { FitsIn 64 result (exec_gas config.now actions.now) }
{
    receipt_gas(config, Payment::Execute, actions)
}

/// The same of a whole list of actions.
///
/// `None` exactly where that is 2^64 or more.
pub fn exec_gas(config: &Config, actions: &List<Action>) -> Option<u64>
    ensures { FitsIn 64 result (exec_gas config.now actions.now) }
{
    exec_gas_of(config, actions.inner())
}

/// The gas that the calls among these actions may burn, in all.
///
/// `None` exactly where that is 2^64 or more.
pub fn attached_gas(actions: &List<Action>) -> Option<u64>
    ensures { FitsIn 64 result (attached_gas actions.now) }
{
    sum_of_attached(actions.inner())
}

/// The deposits of the calls and transfers among these actions, in all, in the smallest unit of the
/// ledger.
///
/// `None` exactly where that is 2^128 or more.
pub fn deposits(actions: &List<Action>) -> Option<u128>
    ensures { FitsIn 128 result (deposits actions.now) }
{
    sum_of_deposits(actions.inner())
}

/// The gas that is paid for when a receipt of these actions is made: to execute it, and to attach.
///
/// `None` exactly where that is 2^64 or more.
pub fn prepaid_gas(config: &Config, actions: &List<Action>) -> Option<u64>
    ensures { FitsIn 64 result (prepaid_gas config.now actions.now) }
{
    let executing = exec_gas(config, actions)?;
    executing.checked_add(attached_gas(actions)?)
}
