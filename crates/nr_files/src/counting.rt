//! What the entries of a stated genesis are counted as, by account.

ghost use Rattle.std.specs.Prelude.{◌≡◌, ℕ, List, map, unwrap_or, IfOk, OnOk};
ghost use Rattle.std.specs.BTreeMap as tree;
ghost use Rattle.std.specs.Map.{count_at};
ghost use Rattle.nr_blocks.specs.Genesis.{code_hash_in, entry_usage, owner, usage_in};
ghost use Rattle.nr_blocks.specs.Parts.{hash_with};
ghost use Rattle.nr_files.specs.Filling.{plain, usage_with};
ghost use Rattle.nr_state.specs.Usage.{zero_hash};
ghost use Rattle.nr_state.specs.World.{bytes_cmp};

use nr_blocks::{add_code, add_usage};
use nr_config::Config;
use nr_config::entries::ACCOUNT_BYTES;
use nr_ids::{AccountId, Hash32};
use nr_json::StatedEntry;
use nr_state::usage::{code_usage, datum_usage, key_usage};
use std::alloc::{AllocError, Global};
use std::collections::BTreeMap;

fn owner_of(entry: &StatedEntry) -> &AccountId
    ensures { result.now ≡ owner (plain entry.now) }
{
    match entry {
        StatedEntry::Account(id, _) => id,
        StatedEntry::Code(id, _) => id,
        StatedEntry::Key(id, _, _) => id,
        StatedEntry::Datum(id, _, _) => id,
    }
}

/// The bytes of storage that an entry costs its account.
fn usage_of(alloc: Global, config: &Config, entry: &StatedEntry) -> Result<u128, AllocError>
    ensures { IfOk result (λ count. count ≡ entry_usage config.now (plain entry.now)) }
{
    match entry {
        StatedEntry::Account(_, _) => Ok(u128::from(config.entry(ACCOUNT_BYTES))),
        StatedEntry::Code(_, code) => Ok(u128::from(code_usage(code.inner()))),
        StatedEntry::Key(_, key, access) => {
            let bytes = key_usage(alloc, config, key, access)?;
            Ok(u128::from(bytes))
        }
        StatedEntry::Datum(_, key, value) => {
            let bytes = datum_usage(config, key.inner(), value.inner())?;
            Ok(u128::from(bytes))
        }
    }
}

fn add_entry(
    alloc: Global,
    config: &Config,
    usages: &mut BTreeMap<AccountId, u128>,
    entry: &StatedEntry,
) -> Result<(), AllocError>
    ensures { OnOk result ((q : List ℕ) → count_at (tree.get bytes_cmp usages.new) q
        ≡ usage_with config.now (plain entry.now) q (count_at (tree.get bytes_cmp usages.old) q)) }
{
    let bytes = usage_of(alloc, config, entry)?;
    add_usage(alloc, usages, owner_of(entry), bytes)?;
    Ok(())
}

/// The bytes of storage that each account uses.
pub(crate) fn usages_of(
    alloc: Global,
    config: &Config,
    entries: &[StatedEntry],
) -> Result<BTreeMap<AccountId, u128>, AllocError>
    ensures { IfOk result (λ usages. (q : List ℕ) → count_at (tree.get bytes_cmp usages) q
        ≡ usage_in config.now (map plain entries.now) q) }
{
    let mut usages = BTreeMap::new(alloc);
    let mut left = entries.len();
    while left > 0 {
        left -= 1;
        add_entry(alloc, config, &mut usages, &entries[left])?;
    }
    Ok(usages)
}

fn add_hash(
    alloc: Global,
    hashes: &mut BTreeMap<AccountId, Hash32>,
    entry: &StatedEntry,
) -> Result<(), AllocError>
    ensures { OnOk result ((q : List ℕ) → unwrap_or (tree.get bytes_cmp hashes.new q) zero_hash
        ≡ hash_with (plain entry.now) q (unwrap_or (tree.get bytes_cmp hashes.old q) zero_hash)) }
{
    match entry {
        StatedEntry::Account(_, _) => Ok(()),
        StatedEntry::Code(id, code) => add_code(alloc, hashes, id, code),
        StatedEntry::Key(_, _, _) => Ok(()),
        StatedEntry::Datum(_, _, _) => Ok(()),
    }
}

/// The hash of each code, by its account.
pub(crate) fn hashes_of(
    alloc: Global,
    entries: &[StatedEntry],
) -> Result<BTreeMap<AccountId, Hash32>, AllocError>
    ensures { IfOk result (λ hashes. (q : List ℕ) → unwrap_or (tree.get bytes_cmp hashes q) zero_hash
        ≡ code_hash_in (map plain entries.now) q) }
{
    let mut hashes = BTreeMap::new(alloc);
    let mut left = entries.len();
    while left > 0 {
        left -= 1;
        add_hash(alloc, &mut hashes, &entries[left])?;
    }
    Ok(hashes)
}
