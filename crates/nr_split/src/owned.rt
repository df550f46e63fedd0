//! The entries of all worlds that belong to a shard.

ghost use Rattle.std.specs.Prelude.{◌≡◌, ◌++◌, IfOk, OnOk};
ghost use Rattle.nr_cut.specs.Cut.{lives_in};
ghost use Rattle.nr_split.specs.Owned.{owned_in, owned_of, picked};

use crate::owners::is_owned;
use nr_bytes::{Blob, List};
use nr_columns::Entry;
use nr_layout::Layout;
use std::alloc::{AllocError, Global};

fn copied(alloc: Global, bytes: &Blob) -> Result<Blob, AllocError>
    ensures { IfOk result (λ other. other ≡ bytes.now) }
{
    Ok(Blob::of(Vec::from_slice(alloc, bytes.inner())?))
}

/// Adds a copy of an entry whose owner lives in the shard.
fn add_picked(
    alloc: Global,
    layout: &Layout,
    shard: u32,
    entry: &Entry,
    found: &mut Vec<Entry>,
) -> Result<(), AllocError>
    ensures { OnOk result (found.new.items ≡ found.old.items ++ picked (lives_in layout.now shard) entry.now) }
{
    if !is_owned(layout, shard, entry.key.inner()) {
        return Ok(());
    }
    let key = copied(alloc, &entry.key)?;
    let value = copied(alloc, &entry.value)?;
    found.push(Entry { key, value })?;
    Ok(())
}

/// Adds copies of those of a world.
fn add_owned(
    alloc: Global,
    layout: &Layout,
    shard: u32,
    entries: &[Entry],
    found: &mut Vec<Entry>,
) -> Result<(), AllocError>
    ensures { OnOk result (found.new.items ≡ found.old.items ++ owned_in (lives_in layout.now shard) entries.now) }
{
    for entry in entries {
        add_picked(alloc, layout, shard, entry, found)?;
    }
    Ok(())
}

/// The entries of all worlds whose owners live in a shard, without those of the delayed queues.
pub(crate) fn owned_of(
    alloc: Global,
    layout: &Layout,
    shard: u32,
    worlds: &[List<Entry>],
) -> Result<List<Entry>, AllocError>
    ensures { IfOk result (λ found. found ≡ owned_of (lives_in layout.now shard) worlds.now) }
{
    let mut found = Vec::new(alloc);
    for entries in worlds {
        add_owned(alloc, layout, shard, entries.inner(), &mut found)?;
    }
    Ok(List::of(found))
}
