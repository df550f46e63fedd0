//! Transactions that are converted.

ghost use Rattle.nr_action_tests.specs.Ready.{IsReady};

use crate::frames::{Has, account, key, state_of};
use crate::setting::{Ask, KEY, PLACE, State, actions_of, id_of};
use nr_config::Config;
use nr_ids::{AccountId, Hash32};
use nr_records::{Account, Transaction};
use nr_txconvert::{Converted, TxFault, convert};
use std::alloc::{AllocError, Global};

/// Who asks for what.
#[derive(Clone, Copy)]
pub(crate) struct Asked {
    pub(crate) signer: &'static [u8],
    pub(crate) receiver: &'static [u8],
    pub(crate) nonce: u64,
    pub(crate) asks: &'static [Ask],
}

pub(crate) fn transaction_of(alloc: Global, asked: Asked) -> Result<Transaction, AllocError> {
    Ok(Transaction {
        signer: id_of(alloc, asked.signer)?,
        public_key: KEY,
        nonce: asked.nonce,
        receiver: id_of(alloc, asked.receiver)?,
        block_hash: Hash32([0; 32]),
        actions: actions_of(alloc, asked.asks)?,
    })
}

fn refusal(fault: TxFault) -> [u128; 3] {
    match fault {
        TxFault::NoSigner => [1, 0, 0],
        TxFault::NoKey => [2, 0, 0],
        TxFault::Nonce { key, tx } => [3, u128::from(key), u128::from(tx)],
        TxFault::TooManyActions => [4, 0, 0],
        TxFault::GasTooLarge => [5, 0, 0],
        TxFault::KeyForbids { part } => [6, u128::from(part), 0],
        TxFault::CostOverflow => [7, 0, 0],
        TxFault::Allowance { has, needs } => [8, has, needs],
        TxFault::Balance { has, needs } => [9, has, needs],
        TxFault::StorageStake { has, needs } => [10, has, needs],
        TxFault::Memory => [11, 0, 0],
    }
}

fn answer_of(outcome: Result<Converted, TxFault>) -> [u128; 3] {
    match outcome {
        Ok(made) => [0, u128::from(made.gas), made.burnt],
        Err(fault) => refusal(fault),
    }
}

/// What is seen once a transaction was converted.
#[derive(Clone, Copy, Debug, PartialEq, Eq)]
pub(crate) struct Answer {
    /// The refusal with its two numbers, or 0, the gas that was burnt and its tokens.
    pub(crate) answer: [u128; 3],
    /// Alice's amount and usage.
    pub(crate) account: Option<(u128, u64)>,
    /// The nonce and the allowance of her key.
    pub(crate) key: Option<(u64, Option<u128>)>,
}

fn look(state: &State, id: &AccountId, answer: [u128; 3]) -> Result<Answer, AllocError> {
    Ok(Answer {
        answer,
        account: account(state, id)?,
        key: key(state, id)?,
    })
}

/// The refusal of a transaction with its two numbers, or 0, the gas that was burnt and its tokens.
pub(crate) fn convert_in(
    alloc: Global,
    config: &Config,
    state: &mut State,
    asked: Asked,
) -> Result<[u128; 3], AllocError>
    requires { IsReady config.now state.old }
{
    let tx = transaction_of(alloc, asked)?;
    Ok(answer_of(convert(alloc, state, config, &tx, &PLACE)))
}

fn try_convert(
    alloc: Global,
    config: &Config,
    account: &Account,
    has: Has,
    asked: Asked,
) -> Result<Answer, AllocError> {
    let id = id_of(alloc, b"alice")?;
    let mut state = state_of(alloc, config, &id, account, has)?;
    let answer = convert_in(alloc, config, &mut state, asked)?;
    look(&state, &id, answer)
}

/// What is seen where memory runs out.
const NO_MEMORY: Answer = Answer {
    answer: [11, 0, 0],
    account: None,
    key: None,
};

/// What is seen once a transaction was converted in a state where alice has this account.
pub(crate) fn answered(
    alloc: Global,
    config: &Config,
    account: &Account,
    has: Has,
    asked: Asked,
) -> Answer {
    try_convert(alloc, config, account, has, asked).unwrap_or(NO_MEMORY)
}
