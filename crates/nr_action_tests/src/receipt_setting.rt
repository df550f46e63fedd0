//! Receipts, configurations that reward, and states with an account that has code.

ghost use Rattle.std.specs.Prelude.{◌≡◌, true, IfOk, IsSome, OnOk};
ghost use Rattle.std.specs.FinMap.{get};
ghost use Rattle.nr_actions.specs.Accounts.{new_account};
ghost use Rattle.nr_action_tests.specs.Sound.{IsSound};
ghost use Rattle.nr_state.specs.Queues.{is_act};
ghost use Rattle.nr_state.specs.World.{no_world};

use crate::setting::{Ask, KEY, State, actions_of, config_with, id_of};
use nr_bytes::List;
use nr_config::Config;
use nr_config::entries::ACCOUNT_BYTES;
use nr_ids::{AccountId, Hash32};
use nr_records::{Account, ActionReceipt, Body, DataReceiver, Receipt};
use nr_state::ShardState;
use nr_state::laws::{token_laws, valid_world_laws};
use nr_store::PlainStore;
use std::alloc::{AllocError, Global};

/// The id of the receipt.
pub(crate) const ID: Hash32 = Hash32([b'r'; 32]);

/// What stands in place of the fees of `setting`: a byte of storage costs a token, actions and names are as in `free`,
/// and a transfer costs no gas. The part of burnt gas that is a reward comes behind it, in hundredths.
const OTHERS: &str = r#",
    "storage_price": 1, "max_actions": 100, "top_level_min_len": 0,
    "transfer_send_local": 0, "transfer_send_remote": 0, "transfer_exec": 0,
    "reward_numerator": "#;

/// A configuration with this reward, in hundredths.
pub(crate) fn config_of(alloc: Global, reward: &str) -> Result<Config, AllocError> {
    config_with(alloc, &[OTHERS, reward])
}

/// Who sends what to whom, what a gas was bought for, and whether `dave` waits for the result.
#[derive(Clone, Copy)]
pub(crate) struct Sent {
    pub(crate) predecessor: &'static [u8],
    pub(crate) receiver: &'static [u8],
    pub(crate) bought: u128,
    pub(crate) asks: &'static [Ask],
    pub(crate) awaited: bool,
}

fn outputs_of(alloc: Global, awaited: bool) -> Result<List<DataReceiver>, AllocError> {
    if !awaited {
        return Ok(List::of(Vec::new(alloc)));
    }
    let output = DataReceiver {
        data_id: Hash32([b'd'; 32]),
        receiver: id_of(alloc, b"dave")?,
    };
    Ok(List::of(vec![in alloc; output]?))
}

fn act_of(alloc: Global, sent: Sent) -> Result<ActionReceipt, AllocError> {
    Ok(ActionReceipt {
        signer: id_of(alloc, b"alice")?,
        signer_key: KEY,
        gas_price: sent.bought,
        outputs: outputs_of(alloc, sent.awaited)?,
        inputs: List::of(Vec::new(alloc)),
        actions: actions_of(alloc, sent.asks)?,
    })
}

/// The receipt, which alice signed.
pub(crate) fn receipt_of(alloc: Global, sent: Sent) -> Result<Receipt, AllocError>
    ensures { IfOk result (λ receipt. is_act receipt.body ≡ true) }
{
    Ok(Receipt {
        predecessor: id_of(alloc, sent.predecessor)?,
        receiver: id_of(alloc, sent.receiver)?,
        receipt_id: ID,
        body: Body::Act(act_of(alloc, sent)?),
    })
}

/// An empty state.
fn empty_state(alloc: Global, config: &Config) -> State
    ensures sound { IsSound config.now result }
    ensures empty { result.world ≡ no_world }
{
    valid_world_laws();
    ShardState::new(alloc, PlainStore::new(alloc), config)
}

/// An account that owns nothing, with so much to spend.
fn account_of(config: &Config, amount: u64) -> Account
    ensures { result ≡ new_account config.now amount }
{
    Account {
        amount: u128::from(amount),
        locked: 0,
        code_hash: Hash32([0; 32]),
        storage_usage: config.entry(ACCOUNT_BYTES),
    }
}

/// Makes an account of so much to spend in an empty state.
fn put_account(
    config: &Config,
    state: &mut State,
    id: &AccountId,
    amount: u64,
) -> Result<(), AllocError>
    requires sound { IsSound config.now state.old }
    requires empty { state.old.world ≡ no_world }
    ensures sound { OnOk result (IsSound config.now state.new) }
    ensures stands { OnOk result (IsSome (get state.new.world.accounts id.now)) }
{
    valid_world_laws();
    token_laws();
    if id.is_system() {
        return Err(AllocError);
    }
    state.set_account(id, &account_of(config, amount))?;
    Ok(())
}

/// Writes the code `abc`.
fn put_code(config: &Config, state: &mut State, id: &AccountId) -> Result<(), AllocError>
    requires sound { IsSound config.now state.old }
    requires stands { IsSome (get state.old.world.accounts id.now) }
    ensures { OnOk result (IsSound config.now state.new) }
{
    valid_world_laws();
    token_laws();
    state.set_code(id, b"abc")?;
    Ok(())
}

/// A state with one account, of so much to spend, that has the code `abc`.
pub(crate) fn state_with(
    alloc: Global,
    config: &Config,
    id: &AccountId,
    amount: u64,
) -> Result<State, AllocError>
    ensures { IfOk result (IsSound config.now) }
{
    let mut state = empty_state(alloc, config);
    put_account(config, &mut state, id, amount)?;
    put_code(config, &mut state, id)?;
    Ok(state)
}
