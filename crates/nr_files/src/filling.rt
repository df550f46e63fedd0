//! A stated genesis with what was left out, and a genesis as it is stated.

ghost use Rattle.std.specs.Prelude.{◌≡◌, ◌++◌, map, unwrap_or, IfOk, OnOk};
ghost use Rattle.std.specs.BTreeMap as tree;
ghost use Rattle.std.specs.List.{flat_map};
ghost use Rattle.std.specs.Map.{count_at};
ghost use Rattle.nr_blocks.specs.Files.{genesis_bytes};
ghost use Rattle.nr_blocks.specs.GenesisFiles.{entry_bytes};
ghost use Rattle.nr_blocks.specs.Spellings.{file_of};
ghost use Rattle.nr_files.specs.Filling.{account_by, filled, filled_entries, filled_entry, stated, stated_entry};
ghost use Rattle.nr_state.specs.Usage.{zero_hash};
ghost use Rattle.nr_state.specs.World.{bytes_cmp};

use crate::counting::{hashes_of, usages_of};
use nr_blocks::{Genesis, GenesisEntry};
use nr_bytes::{Blob, List, Writer};
use nr_config::Config;
use nr_ids::{AccountId, Hash32};
use nr_json::{StatedAccount, StatedEntry, StatedGenesis};
use nr_records::{Account, Spelled};
use std::alloc::{AllocError, Global};
use std::collections::BTreeMap;

/// The bytes that an account uses; they fit, where they are held.
fn usage_at(usages: &BTreeMap<AccountId, u128>, id: &AccountId) -> Result<u64, AllocError>
    ensures { IfOk result (λ count. count ≡ count_at (tree.get bytes_cmp usages.now) id.now) }
{
    let count = usages.get(id).copied().unwrap_or(0);
    u64::try_from(count).map_err(|_| AllocError)
}

/// An account with what was left out.
fn account_by(
    usages: &BTreeMap<AccountId, u128>,
    hashes: &BTreeMap<AccountId, Hash32>,
    id: &AccountId,
    account: &StatedAccount,
) -> Result<Account, AllocError>
    ensures { IfOk result (λ full. full ≡ account_by (λ q. count_at (tree.get bytes_cmp usages.now) q)
        (λ q. unwrap_or (tree.get bytes_cmp hashes.now q) zero_hash) id.now account.now) }
{
    let code_hash = match account.code_hash {
        Some(hash) => hash,
        None => hashes.get(id).copied().unwrap_or(Hash32([0; 32])),
    };
    let storage_usage = match account.storage_usage {
        Some(usage) => usage,
        None => usage_at(usages, id)?,
    };
    Ok(Account {
        amount: account.amount,
        locked: account.locked,
        code_hash,
        storage_usage,
    })
}

fn write_entry(
    usages: &BTreeMap<AccountId, u128>,
    hashes: &BTreeMap<AccountId, Hash32>,
    entry: &StatedEntry,
    writer: &mut Writer,
) -> Result<(), AllocError>
    ensures { OnOk result (writer.new ≡ writer.old ++ entry_bytes (filled_entry
        (λ q. count_at (tree.get bytes_cmp usages.now) q)
        (λ q. unwrap_or (tree.get bytes_cmp hashes.now q) zero_hash) entry.now)) }
{
    match entry {
        StatedEntry::Account(id, account) => {
            let account = account_by(usages, hashes, id, account)?;
            writer.put_u8(0)?;
            id.write(writer)?;
            account.write(writer)
        }
        StatedEntry::Code(id, code) => {
            writer.put_u8(1)?;
            id.write(writer)?;
            code.write(writer)
        }
        StatedEntry::Key(id, key, access) => {
            writer.put_u8(2)?;
            id.write(writer)?;
            key.write(writer)?;
            access.write(writer)
        }
        StatedEntry::Datum(id, key, value) => {
            writer.put_u8(3)?;
            id.write(writer)?;
            key.write(writer)?;
            value.write(writer)
        }
    }
}

fn write_entries(
    usages: &BTreeMap<AccountId, u128>,
    hashes: &BTreeMap<AccountId, Hash32>,
    entries: &[StatedEntry],
    writer: &mut Writer,
) -> Result<(), AllocError>
    ensures { OnOk result (writer.new ≡ writer.old ++ flat_map entry_bytes (map (filled_entry
        (λ q. count_at (tree.get bytes_cmp usages.now) q)
        (λ q. unwrap_or (tree.get bytes_cmp hashes.now q) zero_hash)) entries.now)) }
{
    for index in 0..entries.len() {
        write_entry(usages, hashes, &entries[index], writer)?;
    }
    Ok(())
}

/// The bytes of entries, with what was left out.
fn entries_bytes(
    alloc: Global,
    config: &Config,
    entries: &[StatedEntry],
    writer: &mut Writer,
) -> Result<(), AllocError>
    ensures { OnOk result (writer.new ≡ writer.old ++ flat_map entry_bytes (filled_entries config.now entries.now)) }
{
    let usages = usages_of(alloc, config, entries)?;
    let hashes = hashes_of(alloc, entries)?;
    write_entries(&usages, &hashes, entries, writer)?;
    Ok(())
}

/// The bytes of a genesis file, with what was left out.
pub(crate) fn genesis_bytes(
    alloc: Global,
    config: &Config,
    genesis: &StatedGenesis,
) -> Result<Blob, AllocError>
    ensures { IfOk result (λ bytes. bytes ≡ genesis_bytes (filled config.now genesis.now)) }
{
    let entries = genesis.entries.inner();
    let Ok(count) = u32::try_from(entries.len()) else {
        return Err(AllocError);
    };
    let mut writer = Writer::new(alloc);
    writer.put_raw(b"NRG1")?;
    genesis.boundaries.write(&mut writer)?;
    writer.put_u32(count)?;
    entries_bytes(alloc, config, entries, &mut writer)?;
    Ok(writer.finish())
}

/// An entry as it is stated.
fn stated_entry(entry: GenesisEntry) -> StatedEntry
    ensures { result ≡ stated_entry entry }
{
    match entry {
        GenesisEntry::Account(id, account) => StatedEntry::Account(
            id,
            StatedAccount {
                amount: account.amount,
                locked: account.locked,
                code_hash: Some(account.code_hash),
                storage_usage: Some(account.storage_usage),
            },
        ),
        GenesisEntry::Code(id, code) => StatedEntry::Code(id, code),
        GenesisEntry::Key(id, key, access) => StatedEntry::Key(id, key, access),
        GenesisEntry::Datum(id, key, value) => StatedEntry::Datum(id, key, value),
    }
}

fn stated_entries(alloc: Global, entries: Vec<GenesisEntry>) -> Result<Vec<StatedEntry>, AllocError>
    ensures { IfOk result (λ list. list.items ≡ map stated_entry entries.items) }
{
    let mut list = Vec::new(alloc);
    for entry in entries {
        list.push(stated_entry(entry))?;
    }
    Ok(list)
}

fn boundaries_of(alloc: Global, ids: &[AccountId]) -> Result<Vec<AccountId>, AllocError>
    ensures { IfOk result (λ list. list.items ≡ ids.now) }
{
    let mut list = Vec::new(alloc);
    for id in ids {
        list.push(id.duplicate(alloc)?)?;
    }
    Ok(list)
}

/// A genesis as it is stated.
pub(crate) fn stated(alloc: Global, genesis: Genesis) -> Result<StatedGenesis, AllocError>
    ensures { IfOk result (λ g. g ≡ stated (file_of genesis)) }
{
    let boundaries = boundaries_of(alloc, genesis.layout.boundaries())?;
    let entries = stated_entries(alloc, genesis.entries.into_inner())?;
    Ok(StatedGenesis {
        boundaries: List::of(boundaries),
        entries: List::of(entries),
    })
}
