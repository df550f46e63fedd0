//! Why a transaction of a signer who has the key becomes no receipt.

ghost use Rattle.std.specs.Prelude.{◌≡◌, ◌+◌};
ghost use Rattle.nr_txconvert.specs.Refusals.{use_refusals, call_refusals, key_refusals, payment_refusals};
ghost use Rattle.nr_txconvert.specs.Refusals.{allows_method, allowance_of, storage_stake};
ghost use Rattle.nr_txconvert.specs.Parts.{FindsFirst, Judges, storage_refusals};
ghost use Rattle.nr_keys.specs.Lent.{shown_calls, shown_permission, shown};

use crate::cost::{Cost, cost_of};
use crate::fault::TxFault;
use nr_bytes::{List, Text};
use nr_config::Config;
use nr_config::entries::{MAX_ACTIONS, MAX_PREPAID_GAS};
use nr_fees::attached_gas;
use nr_ids::AccountId;
use nr_keys::{LentCalls, LentKey, LentPermission, Names};
use nr_records::{Account, Action, Transaction};
use nr_state::usage::storage_stake;

/// The refusals of the nonce and of what the actions are.
fn judge_use(config: &Config, tx: &Transaction, access: &LentKey<'_>) -> Result<(), TxFault>
    ensures { FindsFirst result (use_refusals config.now tx.now (shown access.now)) }
{
    if tx.nonce <= access.nonce {
        return Err(TxFault::Nonce {
            key: access.nonce,
            tx: tx.nonce,
        });
    }
    if tx.actions.inner().len() as u64 > config.entry(MAX_ACTIONS) {
        return Err(TxFault::TooManyActions);
    }
    let most = config.entry(MAX_PREPAID_GAS);
    let Some(gas) = attached_gas(&tx.actions) else {
        return Err(TxFault::GasTooLarge);
    };
    if gas > most {
        return Err(TxFault::GasTooLarge);
    }
    Ok(())
}

/// Whether a key that names these methods allows this one.
fn allows_method(methods: &Names<'_>, method: &Text) -> bool
    ensures { result ≡ allows_method methods.now method.now }
{
    methods.is_empty() || methods.contains(method.inner().as_bytes())
}

/// The refusals of a key for calls.
fn judge_call(call: &LentCalls<'_>, receiver: &AccountId, actions: &[Action]) -> Result<(), TxFault>
    ensures { FindsFirst result (call_refusals (shown_calls call.now) receiver.now actions.now) }
{
    let [
        Action::FunctionCall {
            method,
            deposit,
            ..
        },
    ] = actions
    else {
        return Err(TxFault::KeyForbids { part: 1 });
    };
    if *deposit != 0 {
        return Err(TxFault::KeyForbids { part: 2 });
    }
    if call.receiver.inner().as_bytes() != receiver.bytes() {
        return Err(TxFault::KeyForbids { part: 3 });
    }
    if !allows_method(&call.methods, method) {
        return Err(TxFault::KeyForbids { part: 4 });
    }
    Ok(())
}

fn judge_key(permission: &LentPermission<'_>, tx: &Transaction) -> Result<(), TxFault>
    ensures { FindsFirst result (key_refusals (shown_permission permission.now) tx.now) }
{
    match permission {
        LentPermission::Call(call) => judge_call(call, &tx.receiver, tx.actions.inner()),
        LentPermission::Full => Ok(()),
    }
}

/// What is left on a key for calls that has an allowance.
fn allowance_of(permission: &LentPermission<'_>) -> Option<u128>
    ensures { result ≡ allowance_of (shown_permission permission.now) }
{
    match permission {
        LentPermission::Call(call) => call.allowance,
        LentPermission::Full => None,
    }
}

/// The refusal of an account that would be left with too little for its storage.
fn judge_storage(config: &Config, account: &Account, left: u128) -> Result<(), TxFault>
    ensures { FindsFirst result (storage_refusals (left + account.now.locked) (storage_stake config.now account.now)) }
{
    let needs = storage_stake(config, account);
    match left.checked_add(account.locked) {
        Some(has) if has < needs => Err(TxFault::StorageStake { has, needs }),
        _ => Ok(()),
    }
}

/// The refusals of what the signer pays: of the allowance, the balance and the storage.
fn judge_payment(
    config: &Config,
    account: &Account,
    permission: &LentPermission<'_>,
    cost: &Cost,
) -> Result<(), TxFault>
    ensures { FindsFirst result (payment_refusals config.now account.now (shown_permission permission.now)
        cost.now.gas cost.now.whole) }
{
    if let Some(has) = allowance_of(permission) {
        if has < cost.gas {
            return Err(TxFault::Allowance {
                has,
                needs: cost.gas,
            });
        }
    }
    if account.amount < cost.whole {
        return Err(TxFault::Balance {
            has: account.amount,
            needs: cost.whole,
        });
    }
    judge_storage(config, account, account.amount - cost.whole)
}

/// What a signer who has the key pays, or the first refusal.
pub(crate) fn judge(
    config: &Config,
    tx: &Transaction,
    price: u64,
    account: &Account,
    access: &LentKey<'_>,
) -> Result<Cost, TxFault>
    ensures { Judges result config.now tx.now price account.now (shown access.now) }
{
    judge_use(config, tx, access)?;
    judge_key(&access.permission, tx)?;
    let Some(cost) = cost_of(config, tx, price) else {
        return Err(TxFault::CostOverflow);
    };
    judge_payment(config, account, &access.permission, &cost)?;
    Ok(cost)
}
