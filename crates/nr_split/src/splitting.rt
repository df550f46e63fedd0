//! The worlds of shards under other boundaries.

ghost use Rattle.std.specs.FinMap as map;
ghost use Rattle.std.specs.List.{AllByRecursion};
ghost use Rattle.std.specs.Prelude.{◌≡◌, ◌+◌, ◌<◌, ◌≤◌, ◌^◌, ℕ, List as Items, None, map as mapped, length, IfOk, OnOk};
ghost use Rattle.nr_config.specs.Config.{Config};
ghost use Rattle.nr_cut.specs.Cut.{cut_worlds, lives_in};
ghost use Rattle.nr_cut.specs.Laws.{CanCut};
ghost use Rattle.nr_layout.specs.Layout.{out_to, parts};
ghost use Rattle.nr_split.specs.Owned.{owned_of};
ghost use Rattle.nr_split.specs.Split.{delayed_of, entries_cut, entries_split, with_queue, with_receipts};
ghost use Rattle.nr_state.specs.FromEntries.{AreWholeEntries, world_from};

use crate::delayed::all_delayed;
use crate::owned::owned_of;
use nr_bytes::List;
use nr_columns::{Columns, Entry};
use nr_layout::Layout;
use nr_records::Receipt;
use nr_store::PlainStore;
use std::alloc::{AllocError, Global};

/// How many receipts may ever be delayed at a shard.
const MOST_DELAYED: u64 = 1 << 63;

/// Writes a delayed receipt.
fn put_receipt(
    columns: &mut Columns<PlainStore>,
    number: u64,
    receipt: &Receipt,
) -> Result<(), AllocError>
    ensures { OnOk result (columns.new.columns
        ≡ record columns.old.columns { delayed = map.insert columns.old.columns.delayed number receipt.now }) }
{
    columns.set_delayed(number, receipt)?;
    Ok(())
}

/// Writes the receipts of a delayed queue of which none was served.
fn put_receipts(columns: &mut Columns<PlainStore>, delayed: &[Receipt]) -> Result<(), AllocError>
    requires none { columns.old.columns.delayed ≡ map.empty }
    ensures receipts { OnOk result (columns.new.columns ≡ with_receipts columns.old.columns delayed.now) }
{
    for number in 0..delayed.len() {
        put_receipt(columns, number as u64, &delayed[number])?;
    }
    Ok(())
}

/// Writes a delayed queue of which none was served.
fn put_queue(columns: &mut Columns<PlainStore>, delayed: &[Receipt]) -> Result<(), AllocError>
    requires none { columns.old.columns.delayed ≡ map.empty }
    requires no_queue { columns.old.columns.queue ≡ None }
    ensures queue { OnOk result (columns.new.columns ≡ with_queue columns.old.columns delayed.now) }
{
    put_receipts(columns, delayed)?;
    let count = delayed.len() as u64;
    if count > 0 {
        columns.set_queue(0, count)?;
    }
    Ok(())
}

/// The entries of the world of a shard: what lives in it, and its delayed receipts.
#[tactic(auto, using(crate::proofs::Found::laid_owned, crate::proofs::Found::no_queue, crate::proofs::Found::no_delayed))]
fn cut_world(
    alloc: Global,
    worlds: &[List<Entry>],
    layout: &Layout,
    shard: u32,
    delayed: &[Receipt],
) -> Result<List<Entry>, AllocError>
    requires { AllByRecursion AreWholeEntries worlds.now }
    ensures { IfOk result (λ found. found ≡ entries_cut (lives_in layout.now shard) worlds.now delayed.now) }
{
    let owned = owned_of(alloc, layout, shard, worlds)?;
    let mut columns = Columns::from_entries(alloc, PlainStore::new(alloc), &owned)?;
    put_queue(&mut columns, delayed)?;
    columns.entries()
}

/// The entries of the world of one shard, where these are the delayed receipts of all shards.
fn cut_at(
    alloc: Global,
    worlds: &[List<Entry>],
    layout: &Layout,
    shard: u32,
    lists: &[List<Receipt>],
) -> Result<List<Entry>, AllocError>
    requires whole { AllByRecursion AreWholeEntries worlds.now }
    requires lists { lists.now ≡ parts layout.now (length layout.now + 1) (delayed_of worlds.now) }
    requires inside { shard < length layout.now + 1 }
    ensures { IfOk result (λ found. found
        ≡ entries_cut (lives_in layout.now shard) worlds.now (out_to layout.now shard (delayed_of worlds.now))) }
{
    cut_world(alloc, worlds, layout, shard, lists[shard as usize].inner())
}

#[tactic(auto, using(crate::proofs::Steps::mapped_step))]
fn all_cut(
    alloc: Global,
    worlds: &[List<Entry>],
    layout: &Layout,
    lists: &[List<Receipt>],
) -> Result<List<List<Entry>>, AllocError>
    requires whole { AllByRecursion AreWholeEntries worlds.now }
    requires lists { lists.now ≡ parts layout.now (length layout.now + 1) (delayed_of worlds.now) }
    ensures { IfOk result (λ found. found ≡ entries_split layout.now worlds.now) }
{
    let mut found = Vec::new(alloc);
    for shard in 0..layout.shards() {
        let entries = cut_at(alloc, worlds, layout, shard, lists)?;
        found.push(entries)?;
    }
    Ok(List::of(found))
}

/// Refuses more delayed receipts than a world may have.
fn check_few(count: usize) -> Result<(), AllocError>
    ensures { OnOk result (count ≤ 2 ^ 63) }
{
    if count as u64 <= MOST_DELAYED {
        Ok(())
    } else {
        Err(AllocError)
    }
}

/// The entries of the worlds of all shards.
fn split(
    alloc: Global,
    worlds: &List<List<Entry>>,
    layout: &Layout,
) -> Result<List<List<Entry>>, AllocError>
    requires { AllByRecursion AreWholeEntries worlds.now }
    ensures entries { IfOk result (λ found. found ≡ entries_split layout.now worlds.now) }
    ensures few { OnOk result (length (delayed_of worlds.now) ≤ 2 ^ 63) }
{
    let delayed = all_delayed(alloc, worlds.inner())?;
    check_few(delayed.inner().len())?;
    let lists = layout.route(alloc, delayed)?;
    all_cut(alloc, worlds.inner(), layout, lists.inner())
}

/// The worlds of the shards under a layout, in order of number, as trie entries: of all worlds what
/// lives in each shard, and the delayed receipts for it, world after world. These are at most 2^63, those
/// of all shards together. Contracts speak of valid worlds that some layout keeps apart.
///
/// # Errors
///
/// Where there is no memory for it, or more delayed receipts than that.
pub fn split_worlds(
    alloc: Global,
    worlds: &List<List<Entry>>,
    layout: &Layout,
) -> Result<List<List<Entry>>, AllocError>
    requires { AllByRecursion AreWholeEntries worlds.now }
    ensures whole { (c : Config) (old : Items (Items ℕ)) → CanCut c old (mapped world_from worlds.now)
        → IfOk result (AllByRecursion AreWholeEntries) }
    ensures worlds { (c : Config) (old : Items (Items ℕ)) → CanCut c old (mapped world_from worlds.now)
        → IfOk result (λ found. mapped world_from found ≡ cut_worlds layout.now (mapped world_from worlds.now)) }
    ensures few { OnOk result (length (delayed_of worlds.now) ≤ 2 ^ 63) }
{
    split(alloc, worlds, layout)
}
