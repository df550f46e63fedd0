//! What is seen of the trie keys of entries that stand behind their accounts, without a set of keys.

ghost use Rattle.std.specs.Prelude.{◌≡◌, ◌||◌, ℕ, List, None, true, not, IfOk, Ok, OnOk};
ghost use Rattle.std.specs.BTreeSet.{contains};
ghost use Rattle.std.specs.Ordering.{is_lt};
ghost use Rattle.std.specs.Str.{bytes_eq};
ghost use Rattle.nr_ids.specs.Grammar.{id_fault};
ghost use Rattle.nr_ids.specs.Keys.{key_bytes};
ghost use Rattle.nr_state.specs.World.{bytes_cmp};
ghost use Rattle.nr_blocks.specs.Apart.{opens, is_before_key, is_before_datum, is_behind, follows, goes_on};
ghost use Rattle.nr_blocks.specs.Apart.{starts, all_go_on, in_turn, is_new_to, are_new, AreValid};
ghost use Rattle.nr_blocks.specs.Genesis.{owner};
ghost use Rattle.nr_blocks.specs.Judging.{each, is_first};
ghost use Rattle.nr_blocks.specs.Parts.{is_account_of};

use crate::genesis_entry::GenesisEntry;
use crate::owners::owner_of;
use nr_ids::{AccountId, PublicKey};
use std::alloc::{AllocError, Global};
use std::collections::BTreeSet;

fn opens(entry: &GenesisEntry) -> bool
    ensures { result ≡ opens entry.now }
{
    match entry {
        GenesisEntry::Account(_, _) => true,
        GenesisEntry::Code(_, _) => false,
        GenesisEntry::Key(_, _, _) => false,
        GenesisEntry::Datum(_, _, _) => false,
    }
}

fn is_key_before(before: &PublicKey, key: &PublicKey) -> bool
    ensures { result ≡ is_lt (bytes_cmp (key_bytes before.now) (key_bytes key.now)) }
{
    before.cmp(key).is_lt()
}

fn is_before_key(entry: &GenesisEntry, key: &PublicKey) -> bool
    ensures { result ≡ is_before_key key.now entry.now }
{
    match entry {
        GenesisEntry::Account(_, _) => true,
        GenesisEntry::Code(_, _) => true,
        GenesisEntry::Key(_, before, _) => is_key_before(before, key),
        GenesisEntry::Datum(_, _, _) => false,
    }
}

fn is_datum_before(before: &[u8], key: &[u8]) -> bool
    ensures { result ≡ is_lt (bytes_cmp before.now key.now) }
{
    before.cmp(key).is_lt()
}

fn is_before_datum(entry: &GenesisEntry, key: &[u8]) -> bool
    ensures { result ≡ is_before_datum key.now entry.now }
{
    match entry {
        GenesisEntry::Account(_, _) => true,
        GenesisEntry::Code(_, _) => true,
        GenesisEntry::Key(_, _, _) => true,
        GenesisEntry::Datum(_, before, _) => is_datum_before(before.inner(), key),
    }
}

// Whether an entry stands behind another of its account: code, then keys, then data, each in their order.
fn is_behind(before: &GenesisEntry, entry: &GenesisEntry) -> bool
    ensures { result ≡ is_behind before.now entry.now }
{
    match entry {
        GenesisEntry::Account(_, _) => false,
        GenesisEntry::Code(_, _) => opens(before),
        GenesisEntry::Key(_, key, _) => is_before_key(before, key),
        GenesisEntry::Datum(_, key, _) => is_before_datum(before, key.inner()),
    }
}

fn is_same(id: &AccountId, other: &AccountId) -> bool
    ensures { result ≡ bytes_eq id.now other.now }
{
    let bytes = id.bytes();
    bytes == other.bytes()
}

fn follows(before: &GenesisEntry, entry: &GenesisEntry) -> bool
    ensures { result ≡ follows before.now entry.now }
{
    is_same(owner_of(before), owner_of(entry)) && is_behind(before, entry)
}

fn goes_on(before: &GenesisEntry, entry: &GenesisEntry) -> bool
    ensures { result ≡ goes_on before.now entry.now }
{
    opens(entry) || follows(before, entry)
}

fn all_go_on(entries: &[GenesisEntry]) -> bool
    ensures { result ≡ all_go_on entries.now }
{
    let mut rest = entries;
    while let [entry, after @ ..] = rest {
        if let [next, ..] = after
            && !goes_on(entry, next)
        {
            return false;
        }
        rest = after;
    }
    true
}

fn starts(entries: &[GenesisEntry]) -> bool
    ensures { result ≡ starts entries.now }
{
    match entries {
        [] => true,
        [first, ..] => opens(first),
    }
}

// Whether each entry is an account, or follows the one before it.
fn are_in_turn(entries: &[GenesisEntry]) -> bool
    ensures { result ≡ in_turn entries.now }
{
    starts(entries) && all_go_on(entries)
}

fn owner_law(entry: &GenesisEntry)
    ensures { id_fault (owner entry.now) ≡ None }
{
    let _ = owner_of(entry).bytes();
}

fn add_id(alloc: Global, ids: &mut BTreeSet<AccountId>, id: &AccountId) -> Result<bool, AllocError>
    ensures told { IfOk result (λ fresh. fresh ≡ not (contains bytes_cmp ids.old id.now)) }
    ensures ids { OnOk result ((q : List ℕ) → contains bytes_cmp ids.new q
        ≡ (bytes_eq id.now q || contains bytes_cmp ids.old q)) }
{
    let name = id.duplicate(alloc)?;
    let fresh = ids.insert(name)?;
    Ok(fresh)
}

// Puts the id of an account among the others; whether it is new.
fn add_entry(
    alloc: Global,
    ids: &mut BTreeSet<AccountId>,
    entry: &GenesisEntry,
) -> Result<bool, AllocError>
    ensures valid { id_fault (owner entry.now) ≡ None }
    ensures told { IfOk result (λ fresh. fresh ≡ is_new_to (contains bytes_cmp ids.old) entry.now) }
    ensures ids { OnOk result ((q : List ℕ) → contains bytes_cmp ids.new q
        ≡ (is_account_of q entry.now || contains bytes_cmp ids.old q)) }
{
    owner_law(entry);
    match entry {
        GenesisEntry::Account(id, _) => add_id(alloc, ids, id),
        GenesisEntry::Code(_, _) => Ok(true),
        GenesisEntry::Key(_, _, _) => Ok(true),
        GenesisEntry::Datum(_, _, _) => Ok(true),
    }
}

// Whether no two accounts have one id.
fn are_ids_apart(alloc: Global, entries: &[GenesisEntry]) -> Result<bool, AllocError>
    ensures { IfOk result (λ apart. apart ≡ true → (AreValid entries.now × (are_new entries.now ≡ true))) }
{
    let mut ids = BTreeSet::new(alloc);
    let mut left = entries.len();
    while left > 0 {
        left -= 1;
        let fresh = add_entry(alloc, &mut ids, &entries[left])?;
        if !fresh {
            return Ok(false);
        }
    }
    Ok(true)
}

/// Whether the trie keys are seen to be apart by the order of the entries and the ids of the accounts: no two
/// accounts have one id, and each entry is an account, or stands behind another of the same account.
pub(crate) fn are_apart(alloc: Global, entries: &[GenesisEntry]) -> Result<bool, AllocError>
    ensures { IfOk result (λ apart. apart ≡ true → each (is_first entries.now) entries.now ≡ Ok tt) }
{
    let turn = are_in_turn(entries);
    if !turn {
        return Ok(false);
    }
    let apart = are_ids_apart(alloc, entries)?;
    Ok(apart)
}
