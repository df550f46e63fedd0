//! What must hold of the entries of a genesis beside their spelling.

ghost use Rattle.std.specs.Prelude.{◌≡◌, ◌&&◌, ℕ, List, true, not, unwrap_or, IfOk, Ok};
ghost use Rattle.std.specs.BTreeMap as tree;
ghost use Rattle.std.specs.BTreeSet.{contains};
ghost use Rattle.std.specs.Map.{count_at};
ghost use Rattle.nr_ids.specs.Grammar.{is_system};
ghost use Rattle.nr_state.specs.Usage.{zero_hash};
ghost use Rattle.nr_state.specs.World.{bytes_cmp};
ghost use Rattle.nr_blocks.specs.Genesis.{code_hash_in, is_account, owner, usage_in};
ghost use Rattle.nr_bytes.specs.Answers.{Gives};
ghost use Rattle.nr_blocks.specs.Judging.{each, has_owner, is_first, states_hash, states_usage};
ghost use Rattle.nr_blocks.specs.declared.fault.GenesisFault.TheVariants.{Memory};

use crate::apart::are_apart;
use crate::fault::GenesisFault;
use crate::genesis_entry::GenesisEntry;
use crate::groups::{are_grouped, are_stated};
use crate::owners::{accounts_of, hashes_of, owner_of, trie_key_of, usages_of};
use nr_config::Config;
use nr_ids::{AccountId, Hash32};
use std::alloc::{AllocError, Global};
use std::collections::{BTreeMap, BTreeSet};

// No trie key stands twice.
#[tactic(auto, using(crate::proofs::Turns::each_begins, crate::proofs::Turns::each_goes_on, crate::proofs::Turns::each_stops, crate::proofs::Turns::each_ends))]
fn check_trie_keys(alloc: Global, entries: &[GenesisEntry]) -> Result<(), GenesisFault>
    ensures { Gives Memory result (each (is_first entries.now) entries.now) }
{
    let mut seen = BTreeSet::new(alloc);
    for index in 0..entries.len() {
        let key = trie_key_of(alloc, &entries[index])?;
        let fresh = seen.insert(key)?;
        if !fresh {
            return Err(GenesisFault::Duplicate {
                index: index as u64,
            });
        }
    }
    Ok(())
}

/// As `check_trie_keys`: a set of all keys is made only where the order of the entries tells nothing.
pub(crate) fn judge_trie_keys(alloc: Global, entries: &[GenesisEntry]) -> Result<(), GenesisFault>
    ensures { Gives Memory result (each (is_first entries.now) entries.now) }
{
    if are_apart(alloc, entries)? {
        return Ok(());
    }
    check_trie_keys(alloc, entries)
}

fn is_owned(entry: &GenesisEntry, accounts: &BTreeSet<AccountId>) -> bool
    ensures { result ≡ (contains bytes_cmp accounts.now (owner entry.now) && not (is_system (owner entry.now))) }
{
    let id = owner_of(entry);
    accounts.contains(id) && !id.is_system()
}

#[tactic(auto, using(crate::proofs::Turns::each_begins, crate::proofs::Turns::each_goes_on, crate::proofs::Turns::each_stops, crate::proofs::Turns::each_ends))]
fn check_owners_in(
    entries: &[GenesisEntry],
    accounts: &BTreeSet<AccountId>,
) -> Result<(), GenesisFault>
    requires { (q : List ℕ) → contains bytes_cmp accounts.now q ≡ is_account entries.now q }
    ensures { result ≡ each (has_owner entries.now) entries.now }
{
    for index in 0..entries.len() {
        if !is_owned(&entries[index], accounts) {
            return Err(GenesisFault::NoOwner {
                index: index as u64,
            });
        }
    }
    Ok(())
}

/// Each entry's account stands, and is not `system`.
pub(crate) fn check_owners(alloc: Global, entries: &[GenesisEntry]) -> Result<(), GenesisFault>
    ensures { Gives Memory result (each (has_owner entries.now) entries.now) }
{
    if are_grouped(entries) {
        return Ok(());
    }
    let accounts = accounts_of(alloc, entries)?;
    check_owners_in(entries, &accounts)?;
    Ok(())
}

fn check_usage(
    index: usize,
    entry: &GenesisEntry,
    usages: &BTreeMap<AccountId, u128>,
) -> Result<(), GenesisFault>
    ensures { Gives Memory result (states_usage (λ q. count_at (tree.get bytes_cmp usages.now) q) index entry.now) }
{
    match entry {
        GenesisEntry::Account(id, account) => {
            let stated = account.storage_usage;
            let counted = usages.get(id).copied().unwrap_or(0);
            if u128::from(stated) == counted {
                return Ok(());
            }
            let Ok(counted) = u64::try_from(counted) else {
                return Err(GenesisFault::Memory);
            };
            Err(GenesisFault::Usage {
                index: index as u64,
                stated,
                counted,
            })
        }
        GenesisEntry::Code(_, _) => Ok(()),
        GenesisEntry::Key(_, _, _) => Ok(()),
        GenesisEntry::Datum(_, _, _) => Ok(()),
    }
}

#[tactic(auto, using(crate::proofs::Turns::each_begins, crate::proofs::Turns::each_goes_on, crate::proofs::Turns::each_stops, crate::proofs::Turns::each_ends))]
fn check_usages_in(
    entries: &[GenesisEntry],
    usages: &BTreeMap<AccountId, u128>,
) -> Result<(), GenesisFault>
    ensures { Gives Memory result (each (states_usage (λ q. count_at (tree.get bytes_cmp usages.now) q)) entries.now) }
{
    for index in 0..entries.len() {
        check_usage(index, &entries[index], usages)?;
    }
    Ok(())
}

/// Each account states what its entries are counted as.
fn check_usages(
    alloc: Global,
    entries: &[GenesisEntry],
    config: &Config,
) -> Result<(), GenesisFault>
    ensures { Gives Memory result (each (states_usage (usage_in config.now entries.now)) entries.now) }
{
    let usages = usages_of(alloc, entries, config)?;
    check_usages_in(entries, &usages)?;
    Ok(())
}

// Whether each account is seen to state what its entries are counted as by their order alone.
fn usages_stand(
    alloc: Global,
    entries: &[GenesisEntry],
    config: &Config,
) -> Result<bool, AllocError>
    requires { each (is_first entries.now) entries.now ≡ Ok tt }
    ensures { IfOk result (λ stand. stand ≡ true
        → each (states_usage (usage_in config.now entries.now)) entries.now ≡ Ok tt) }
{
    if !are_grouped(entries) {
        return Ok(false);
    }
    let stated = are_stated(alloc, entries, config)?;
    Ok(stated)
}

/// As `check_usages`, of entries whose trie keys are apart: a map is made only where their order tells nothing.
pub(crate) fn judge_usages(
    alloc: Global,
    entries: &[GenesisEntry],
    config: &Config,
) -> Result<(), GenesisFault>
    requires { each (is_first entries.now) entries.now ≡ Ok tt }
    ensures { Gives Memory result (each (states_usage (usage_in config.now entries.now)) entries.now) }
{
    if usages_stand(alloc, entries, config)? {
        return Ok(());
    }
    check_usages(alloc, entries, config)
}

fn check_hash(
    index: usize,
    entry: &GenesisEntry,
    hashes: &BTreeMap<AccountId, Hash32>,
) -> Result<(), GenesisFault>
    ensures { result ≡ states_hash (λ q. unwrap_or (tree.get bytes_cmp hashes.now q) zero_hash) index entry.now }
{
    match entry {
        GenesisEntry::Account(id, account) => {
            let hash = hashes.get(id).copied().unwrap_or(Hash32([0; 32]));
            if account.code_hash.0.as_slice() != hash.0.as_slice() {
                return Err(GenesisFault::CodeHash {
                    index: index as u64,
                });
            }
            Ok(())
        }
        GenesisEntry::Code(_, _) => Ok(()),
        GenesisEntry::Key(_, _, _) => Ok(()),
        GenesisEntry::Datum(_, _, _) => Ok(()),
    }
}

#[tactic(auto, using(crate::proofs::Turns::each_begins, crate::proofs::Turns::each_goes_on, crate::proofs::Turns::each_stops, crate::proofs::Turns::each_ends))]
fn check_hashes_in(
    entries: &[GenesisEntry],
    hashes: &BTreeMap<AccountId, Hash32>,
) -> Result<(), GenesisFault>
    ensures { result ≡ each (states_hash (λ q. unwrap_or (tree.get bytes_cmp hashes.now q) zero_hash)) entries.now }
{
    for index in 0..entries.len() {
        check_hash(index, &entries[index], hashes)?;
    }
    Ok(())
}

/// Each account states the hash of its code, or zeros where it has none.
pub(crate) fn check_code_hashes(alloc: Global, entries: &[GenesisEntry]) -> Result<(), GenesisFault>
    ensures { Gives Memory result (each (states_hash (code_hash_in entries.now)) entries.now) }
{
    let hashes = hashes_of(alloc, entries)?;
    check_hashes_in(entries, &hashes)?;
    Ok(())
}
