//! The storage that the records of an account are counted as.

ghost use Rattle.std.specs.Prelude.{◌≡◌, ◌+◌, ◌∷◌, IfOk, length};
ghost use Rattle.nr_config.specs.Config.{extra_record_bytes};
ghost use Rattle.nr_ids.specs.Keys.{key_bytes};
ghost use Rattle.nr_records.specs.AccessKeys.{access_key_bytes};
ghost use Rattle.nr_state.specs.Changes.{moved};
ghost use Rattle.nr_state.specs.Owners.{IsMoved};
ghost use Rattle.nr_state.specs.View.{world_in};
ghost use Rattle.nr_state.specs.Usage.{key_usage, datum_usage, storage_stake};

use nr_columns::{Columns, SpelledKey};
use nr_config::Config;
use nr_config::entries::{EXTRA_RECORD_BYTES, STORAGE_PRICE};
use nr_ids::{AccountId, PublicKey};
use nr_records::{AccessKey, Account, Permission, encode};
use nr_triedef::Store;
use std::alloc::{AllocError, Global};

/// The tokens that an account's storage asks it to keep, in the smallest unit of the ledger: for each
/// byte that it is counted as, the entry `storage_price` of the configuration.
pub fn storage_stake(config: &Config, account: &Account) -> u128
    ensures { result ≡ storage_stake config.now account.now }
{
    u128::from(account.storage_usage) * u128::from(config.entry(STORAGE_PRICE))
}

/// The bytes that code is counted as: its own.
pub fn code_usage(code: &[u8]) -> u64
    ensures { result ≡ length code.now }
{
    code.len() as u64
}

// What a record is counted as, whose key and value have so many bytes.
fn record_usage(config: &Config, key: u64, value: u64) -> Result<u64, AllocError>
    ensures { IfOk result (λ usage. usage ≡ key + value + extra_record_bytes config.now) }
{
    key.checked_add(value)
        .and_then(|bytes| bytes.checked_add(config.entry(EXTRA_RECORD_BYTES)))
        .ok_or(AllocError)
}

/// The bytes that a datum is counted as: those of its key and its value, and the entry
/// `extra_record_bytes` of the configuration.
///
/// # Errors
///
/// Where they are 2^64 or more.
pub fn datum_usage(config: &Config, key: &[u8], value: &[u8]) -> Result<u64, AllocError>
    ensures { IfOk result (λ usage. usage ≡ datum_usage config.now key.now value.now) }
{
    Ok(record_usage(config, key.len() as u64, value.len() as u64)?)
}

// How many bytes a byte and these are.
fn one_more(bytes: &[u8]) -> u64
    ensures { result ≡ length (0 ∷ bytes.now) }
{
    bytes.len() as u64 + 1
}

// How many bytes spell a public key.
fn key_length(key: &PublicKey) -> u64
    ensures { result ≡ length (key_bytes key.now) }
{
    match key {
        PublicKey::Ed25519(bytes) => one_more(bytes),
        PublicKey::Secp256k1(bytes) => one_more(bytes),
    }
}

// How many bytes spell an access key.
fn access_length(alloc: Global, access: &AccessKey) -> Result<u64, AllocError>
    ensures { IfOk result (λ bytes. bytes ≡ length (access_key_bytes access.now)) }
{
    match &access.permission {
        // A nonce and one byte.
        Permission::Full => Ok(9),
        Permission::Call(_) => {
            let spelled = encode(alloc, access)?;
            Ok(spelled.inner().len() as u64)
        }
    }
}

// How many bytes spell an access key that is spelled already.
fn spelled_length(access: &SpelledKey<'_>) -> u64
    ensures { result ≡ length (access_key_bytes access.now) }
{
    access.bytes().len() as u64
}

/// The bytes that an access key is counted as: those of the spellings of its public key and of its
/// access key, and the entry `extra_record_bytes` of the configuration.
///
/// # Errors
///
/// Where there is no memory to spell the access key, or the bytes are 2^64 or more.
pub fn key_usage(
    alloc: Global,
    config: &Config,
    key: &PublicKey,
    access: &AccessKey,
) -> Result<u64, AllocError>
    ensures { IfOk result (λ usage. usage ≡ key_usage config.now key.now access.now) }
{
    let bytes = access_length(alloc, access)?;
    Ok(record_usage(config, key_length(key), bytes)?)
}

/// What an access key that is spelled already is counted as.
pub(crate) fn spelled_usage(
    config: &Config,
    key: &PublicKey,
    access: &SpelledKey<'_>,
) -> Result<u64, AllocError>
    ensures { IfOk result (λ usage. usage ≡ key_usage config.now key.now access.now) }
{
    Ok(record_usage(config, key_length(key), spelled_length(access))?)
}

fn moved(account: &Account, less: u64, more: u64) -> Result<Account, AllocError>
    ensures { IfOk result (λ after. after ≡ moved less more account.now) }
{
    let mut after = *account;
    after.storage_usage = account
        .storage_usage
        .saturating_sub(less)
        .checked_add(more)
        .ok_or(AllocError)?;
    Ok(after)
}

/// The account with its usage moved from one count to another.
pub(crate) fn moved_owner<S: Store>(
    columns: &Columns<S>,
    id: &AccountId,
    less: u64,
    more: u64,
) -> Result<Account, AllocError>
    ensures { IfOk result (IsMoved (world_in columns.now.columns) id.now less more) }
{
    match columns.account(id)? {
        Some(account) => moved(&account, less, more),
        None => Err(AllocError),
    }
}
