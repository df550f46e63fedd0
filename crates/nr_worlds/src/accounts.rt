//! Accounts that are counted as what they own.

ghost use Rattle.std.specs.Prelude.{◌≡◌, ◌&&◌, ◌==◌, ◌+◌, Some, None, cond, IfOk};
ghost use Rattle.std.specs.Option.{option_copied};
ghost use Rattle.nr_entries.specs.Told.{is_id};
ghost use Rattle.nr_state.specs.Valid.{hash_of_code};
ghost use Rattle.nr_columns.specs.View.{accounts_table};
ghost use Rattle.std.specs.BTreeMap as tree;
ghost use Rattle.std.specs.List.{list_all};
ghost use Rattle.std.specs.Map.{count_at};
ghost use Rattle.nr_columns.specs.Orders.{bytes_cmp};
ghost use Rattle.nr_columns.specs.View.{at_first};
ghost use Rattle.nr_worlds.specs.Tests.{account_told, accounts_told, code_bytes, entry_fits, has_owner, is_owner};

use nr_bytes::Blob;
use nr_columns::{Columns, Entry};
use nr_config::Config;
use nr_config::entries::{ACCOUNT_BYTES, EXTRA_RECORD_BYTES};
use nr_entries::{owned_bytes, split_at_first};
use nr_ids::{AccountId, Hash32, IdFault};
use nr_records::{Account, RecordFault, decode};
use nr_triedef::{Store, value_hash};
use std::alloc::{AllocError, Global};
use std::collections::BTreeMap;

/// The account id that the bytes are, if they are one.
fn id_of(alloc: Global, bytes: &[u8]) -> Result<Option<AccountId>, AllocError>
    ensures { IfOk result (λ id. id ≡ cond (is_id bytes.now) (Some bytes.now) None) }
{
    match AccountId::parse(alloc, bytes) {
        Ok(id) => Ok(Some(id)),
        Err(IdFault::Memory) => Err(AllocError),
        Err(_) => Ok(None),
    }
}

/// The account that the bytes spell, if they spell one.
fn read(alloc: Global, bytes: &[u8]) -> Result<Option<Account>, AllocError>
    ensures { IfOk result (λ account. account ≡ accounts_table.read bytes.now) }
{
    match decode::<Account>(alloc, bytes) {
        Ok(account) => Ok(Some(account)),
        Err(RecordFault::Memory) => Err(AllocError),
        Err(_) => Ok(None),
    }
}

/// The bytes of an account's code and its hash; 0 and zeros where it has none.
fn code_of(code: Option<&[u8]>) -> (u64, Hash32)
    ensures bytes { result.0 ≡ code_bytes (option_copied code.entry) }
    ensures hash { result.1 ≡ hash_of_code (option_copied code.entry) }
{
    match code {
        Some(code) => (code.len() as u64, value_hash(code)),
        None => (0, Hash32([0; 32])),
    }
}

/// Whether an account's usage is the sum of these.
fn is_counted(usage: u64, own: u64, code: u64, owned: u128) -> bool
    ensures { result ≡ (usage == own + code + owned) }
{
    let sum = u128::from(own) + u128::from(code);
    sum.checked_add(owned) == Some(u128::from(usage))
}

/// Whether an account is no `system`, has the hash of its code, and is counted as itself, its code
/// and so many bytes of keys and data.
#[tactic(auto, unfolding(crate::specs::Tests::account_told))]
fn account_fits<S: Store>(
    alloc: Global,
    config: &Config,
    columns: &Columns<S>,
    owned: u128,
    id: &[u8],
    value: &[u8],
) -> Result<bool, AllocError>
    ensures { IfOk result (λ fits. fits ≡ account_told config.now columns.now.columns owned id.now value.now) }
{
    let Some(id) = id_of(alloc, id)? else {
        return Ok(false);
    };
    let Some(account) = read(alloc, value)? else {
        return Ok(false);
    };
    let (bytes, hash) = code_of(columns.code(&id)?);
    let own = config.entry(ACCOUNT_BYTES);
    let counted = is_counted(account.storage_usage, own, bytes, owned);
    Ok(!id.is_system() && counted && account.code_hash == hash)
}

/// Whether there is an account under the id.
fn is_owner<S: Store>(alloc: Global, columns: &Columns<S>, id: &[u8]) -> Result<bool, AllocError>
    ensures { IfOk result (λ is. is ≡ is_owner columns.now.columns id.now) }
{
    match id_of(alloc, id)? {
        Some(id) => Ok(columns.account(&id)?.is_some()),
        None => Ok(false),
    }
}

/// Whether there is an account under the id before a byte.
fn has_owner<S: Store>(
    alloc: Global,
    columns: &Columns<S>,
    rest: &[u8],
    mark: u8,
) -> Result<bool, AllocError>
    ensures { IfOk result (λ has. has ≡ has_owner columns.now.columns (at_first mark rest.now)) }
{
    match split_at_first(rest, mark) {
        Some((owner, _)) => is_owner(alloc, columns, owner),
        None => Ok(false),
    }
}

/// What an owner is counted as.
fn owned_by(alloc: Global, counts: &BTreeMap<Blob, u128>, id: &[u8]) -> Result<u128, AllocError>
    ensures { IfOk result (λ bytes. bytes ≡ count_at (tree.get bytes_cmp counts.now) id.now) }
{
    let name = Blob::of(Vec::from_slice(alloc, id)?);
    Ok(counts.get(&name).copied().unwrap_or(0))
}

/// Whether the account of an entry fits, with what it is counted as.
fn account_entry_fits<S: Store>(
    alloc: Global,
    config: &Config,
    columns: &Columns<S>,
    counts: &BTreeMap<Blob, u128>,
    id: &[u8],
    value: &[u8],
) -> Result<bool, AllocError>
    ensures { IfOk result (λ fits. fits ≡ account_told config.now columns.now.columns
        (count_at (tree.get bytes_cmp counts.now) id.now) id.now value.now) }
{
    let owned = owned_by(alloc, counts, id)?;
    account_fits(alloc, config, columns, owned, id, value)
}

/// Whether an account of an entry fits, or the owner of what an entry is of stands.
#[tactic(auto, unfolding(crate::specs::Tests::entry_fits))]
fn entry_fits<S: Store>(
    alloc: Global,
    config: &Config,
    columns: &Columns<S>,
    counts: &BTreeMap<Blob, u128>,
    entry: &Entry,
) -> Result<bool, AllocError>
    ensures { IfOk result (λ fits. fits ≡ entry_fits config.now columns.now.columns
        (λ q. count_at (tree.get bytes_cmp counts.now) q) entry.now.key entry.now.value) }
{
    match entry.key.inner() {
        [0, id @ ..] => {
            account_entry_fits(alloc, config, columns, counts, id, entry.value.inner())
        }
        [1, id @ ..] => is_owner(alloc, columns, id),
        [2, rest @ ..] => has_owner(alloc, columns, rest, 2),
        [9, rest @ ..] => has_owner(alloc, columns, rest, b','),
        _ => Ok(true),
    }
}

/// Whether each account of entries fits, and the owner of what each entry is of stands.
fn each_entry_fits<S: Store>(
    alloc: Global,
    config: &Config,
    columns: &Columns<S>,
    counts: &BTreeMap<Blob, u128>,
    entries: &[Entry],
) -> Result<bool, AllocError>
    ensures { IfOk result (λ fit. fit ≡ list_all
        (λ e. entry_fits config.now columns.now.columns (λ q. count_at (tree.get bytes_cmp counts.now) q) e.key
        e.value) entries.now) }
{
    let mut rest = entries;
    while let [entry, after @ ..] = rest {
        if !entry_fits(alloc, config, columns, counts, entry)? {
            return Ok(false);
        }
        rest = after;
    }
    Ok(true)
}

/// Whether each account fits, and each key, code and datum has an owner that stands.
pub(crate) fn accounts_fit<S: Store>(
    alloc: Global,
    config: &Config,
    columns: &Columns<S>,
    entries: &[Entry],
) -> Result<bool, AllocError>
    ensures { IfOk result (λ fit. fit ≡ accounts_told config.now columns.now.columns entries.now) }
{
    let counts = owned_bytes(alloc, config.entry(EXTRA_RECORD_BYTES), entries)?;
    each_entry_fits(alloc, config, columns, &counts, entries)
}
