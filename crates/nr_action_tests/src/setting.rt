//! Configurations, actions, and states with an account.

ghost use Rattle.std.specs.Prelude.{IfOk, OnOk};
ghost use Rattle.nr_action_tests.specs.Ready.{IsReady};

use nr_bytes::{Blob, List, Text};
use nr_config::Config;
use nr_ids::{AccountId, Hash32, Height, PublicKey};
use nr_records::{AccessKey, Account, Action, CallPermission, Permission};
use nr_state::{Place, ShardState};
use nr_store::PlainStore;
use std::alloc::{AllocError, Global};

pub(crate) type State = ShardState<PlainStore>;

/// The key of the tests, of 32 bytes.
pub(crate) const KEY: PublicKey = PublicKey::Ed25519([1; 32]);

/// A chunk at height 5 in which a gas costs a token.
pub(crate) const PLACE: Place = Place {
    height: Height(5),
    timestamp: 0,
    price: 1,
};

/// As `free`, but at most 3 actions, names of 4 bytes at least, and these fees (to send to oneself,
/// to send, to execute): of a receipt 1, 1, 2; of a call 3, 3, 4; of a transfer 5, 7, 11. The brace at
/// its end is left out, so that members may follow: of equal names the last counts.
const PRICED: &str = r#"{
    "gas_price": 1, "storage_price": 0, "chunk_gas_limit": 1000000000000000,
    "regular_op_cost": 1, "max_actions": 3, "max_prepaid_gas": 1000000000000000,
    "account_bytes": 100, "extra_record_bytes": 40, "top_level_min_len": 4,
    "delete_state_limit": 10000, "reward_numerator": 0, "reward_denominator": 100,
    "max_code": 4194304, "max_pages": 256, "max_call_depth": 1000,
    "max_stack_values": 100000, "max_registers": 100, "max_register_bytes": 4194304,
    "max_all_register_bytes": 16777216, "max_logs": 100, "max_log_bytes": 16384,
    "max_key_bytes": 2048, "max_value_bytes": 4194304, "max_return_bytes": 4194304,
    "max_promises": 1024, "load_base": 0, "load_byte": 0, "host_base": 0, "host_byte": 0,
    "storage_base": 0, "storage_byte": 0, "sha_base": 0, "sha_byte": 0,
    "action_receipt_send_local": 1, "action_receipt_send_remote": 1, "action_receipt_exec": 2,
    "data_base_send_local": 0, "data_base_send_remote": 0, "data_base_exec": 0,
    "data_byte_send_local": 0, "data_byte_send_remote": 0, "data_byte_exec": 0,
    "create_account_send_local": 0, "create_account_send_remote": 0, "create_account_exec": 0,
    "deploy_base_send_local": 0, "deploy_base_send_remote": 0, "deploy_base_exec": 0,
    "deploy_byte_send_local": 0, "deploy_byte_send_remote": 0, "deploy_byte_exec": 0,
    "call_base_send_local": 3, "call_base_send_remote": 3, "call_base_exec": 4,
    "call_byte_send_local": 0, "call_byte_send_remote": 0, "call_byte_exec": 0,
    "transfer_send_local": 5, "transfer_send_remote": 7, "transfer_exec": 11,
    "add_full_key_send_local": 0, "add_full_key_send_remote": 0, "add_full_key_exec": 0,
    "add_call_key_base_send_local": 0, "add_call_key_base_send_remote": 0,
    "add_call_key_base_exec": 0, "add_call_key_byte_send_local": 0,
    "add_call_key_byte_send_remote": 0, "add_call_key_byte_exec": 0,
    "delete_key_send_local": 0, "delete_key_send_remote": 0, "delete_key_exec": 0,
    "delete_account_send_local": 0, "delete_account_send_remote": 0, "delete_account_exec": 0"#;

fn text_with(alloc: Global, members: &[&str]) -> Result<String, AllocError> {
    let mut text = String::from_str(alloc, PRICED)?;
    for piece in members {
        text.push_str(piece)?;
    }
    text.push_str("}")?;
    Ok(text)
}

/// The configuration with prices, and with members that count more, put together of pieces.
pub(crate) fn config_with(alloc: Global, members: &[&str]) -> Result<Config, AllocError> {
    let text = text_with(alloc, members)?;
    let Ok(config) = Config::read(alloc, text.as_bytes()) else {
        return Err(AllocError);
    };
    Ok(config)
}

/// The configuration with prices; `free` where memory runs out.
pub(crate) fn priced(alloc: Global) -> Config {
    config_with(alloc, &[]).unwrap_or(Config::free())
}

/// The account id of these bytes.
pub(crate) fn id_of(alloc: Global, bytes: &[u8]) -> Result<AccountId, AllocError> {
    let Ok(id) = AccountId::parse(alloc, bytes) else {
        return Err(AllocError);
    };
    Ok(id)
}

pub(crate) fn text_of(alloc: Global, text: &str) -> Result<Text, AllocError> {
    Ok(Text::of(String::from_str(alloc, text)?))
}

/// An action: code is `abc`, a key is full with nonce 7, and the beneficiary is `bob`.
#[derive(Clone, Copy)]
pub(crate) enum Ask {
    Create,
    Deploy,
    /// The method, the gas and the deposit.
    Call(&'static str, u64, u128),
    Transfer(u128),
    AddKey,
    DeleteKey,
    Delete,
}

fn deploy(alloc: Global) -> Result<Action, AllocError> {
    Ok(Action::DeployContract {
        code: Blob::of(Vec::from_slice(alloc, b"abc")?),
    })
}

fn call(alloc: Global, method: &str, gas: u64, deposit: u128) -> Result<Action, AllocError> {
    Ok(Action::FunctionCall {
        method: text_of(alloc, method)?,
        args: Blob::of(Vec::new(alloc)),
        gas,
        deposit,
    })
}

/// A key for all, with this nonce.
pub(crate) fn full_key(nonce: u64) -> AccessKey {
    AccessKey {
        nonce,
        permission: Permission::Full,
    }
}

fn action_of(alloc: Global, ask: Ask) -> Result<Action, AllocError> {
    match ask {
        Ask::Create => Ok(Action::CreateAccount),
        Ask::Deploy => deploy(alloc),
        Ask::Call(method, gas, deposit) => call(alloc, method, gas, deposit),
        Ask::Transfer(deposit) => Ok(Action::Transfer { deposit }),
        Ask::AddKey => Ok(Action::AddKey {
            public_key: KEY,
            access_key: full_key(7),
        }),
        Ask::DeleteKey => Ok(Action::DeleteKey { public_key: KEY }),
        Ask::Delete => Ok(Action::DeleteAccount {
            beneficiary: id_of(alloc, b"bob")?,
        }),
    }
}

pub(crate) fn actions_of(alloc: Global, asks: &[Ask]) -> Result<List<Action>, AllocError> {
    let mut actions = Vec::new(alloc);
    for ask in asks {
        actions.push(action_of(alloc, *ask)?)?;
    }
    Ok(List::of(actions))
}

/// An account with so much to spend, which is counted as 100 bytes.
pub(crate) fn account_of(amount: u128) -> Account {
    Account {
        amount,
        locked: 0,
        code_hash: Hash32([0; 32]),
        storage_usage: 100,
    }
}

/// Calls of these methods of the account `con`, with this allowance.
fn call_permission(
    alloc: Global,
    allowance: Option<u128>,
    methods: &[&str],
) -> Result<CallPermission, AllocError> {
    let mut names = Vec::new(alloc);
    for method in methods {
        names.push(text_of(alloc, method)?)?;
    }
    Ok(CallPermission {
        allowance,
        receiver: text_of(alloc, "con")?,
        methods: List::of(names),
    })
}

pub(crate) fn call_key(
    alloc: Global,
    nonce: u64,
    allowance: Option<u128>,
    methods: &[&str],
) -> Result<AccessKey, AllocError> {
    Ok(AccessKey {
        nonce,
        permission: Permission::Call(call_permission(alloc, allowance, methods)?),
    })
}

/// An empty state with room for a checkpoint.
fn empty_state(alloc: Global, config: &Config) -> Result<State, AllocError>
    ensures { IfOk result (IsReady config.now) }
{
    let mut state = ShardState::new(alloc, PlainStore::new(alloc), config);
    state.reserve_marks(1)?;
    Ok(state)
}

/// A state with one account.
pub(crate) fn state_with(
    alloc: Global,
    config: &Config,
    id: &AccountId,
    account: &Account,
) -> Result<State, AllocError>
    ensures { IfOk result (IsReady config.now) }
{
    let mut state = empty_state(alloc, config)?;
    state.set_account(id, account)?;
    Ok(state)
}

/// Writes a key, where its owner stands.
pub(crate) fn put_key(
    config: &Config,
    state: &mut State,
    id: &AccountId,
    access: &AccessKey,
) -> Result<(), AllocError>
    requires { IsReady config.now state.old }
    ensures { OnOk result (IsReady config.now state.new) }
{
    if state.account(id)?.is_none() {
        return Err(AllocError);
    }
    state.set_key(id, &KEY, access)?;
    Ok(())
}

/// Writes the code `abc`, where its owner stands.
pub(crate) fn put_code(config: &Config, state: &mut State, id: &AccountId) -> Result<(), AllocError>
    requires { IsReady config.now state.old }
    ensures { OnOk result (IsReady config.now state.new) }
{
    if state.account(id)?.is_none() {
        return Err(AllocError);
    }
    state.set_code(id, b"abc")?;
    Ok(())
}
