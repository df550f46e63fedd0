//! Lists of keys of a store.

ghost use Rattle.std.specs.Prelude.{◌≡◌, IfOk, OnOk};
ghost use Rattle.std.specs.FinMap as map;
ghost use Rattle.std.specs.List.{fold, flat_map};
ghost use Rattle.nr_columns.specs.View.{IsLaid};
ghost use Rattle.nr_columns.specs.Entries.{contents_of, pairs_of, pair_at};

use crate::entry::Entry;
use nr_bytes::Blob;
use nr_triedef::Store;
use std::alloc::{AllocError, Global};

/// Takes the keys out, one after the other.
pub(crate) fn remove_each<S: Store>(store: &mut S, keys: &[Blob]) -> Result<(), AllocError>
    ensures ok { OnOk result (S.contents store.new ≡ fold map.remove (S.contents store.old) keys.now) }
    ensures laid { IsLaid (S.contents store.old) → IsLaid (S.contents store.new) }
    ensures marks { S.marks store.new ≡ S.marks store.old }
    ensures spare { S.spare store.new ≡ S.spare store.old }
{
    for key in keys {
        store.remove(key.inner())?;
    }
    Ok(())
}

/// The keys that are there, each with its value.
pub(crate) fn entries_at<S: Store>(
    alloc: Global,
    store: &S,
    keys: Vec<Blob>,
) -> Result<Vec<Entry>, AllocError>
    ensures { IfOk result (λ found. pairs_of found.items ≡ flat_map (pair_at (S.contents store.now)) keys.items) }
{
    let mut found = Vec::with_capacity(alloc, keys.len())?;
    for key in keys {
        if let Some(bytes) = store.get(key.inner()) {
            let value = Blob::of(Vec::from_slice(alloc, bytes)?);
            found.push(Entry { key, value })?;
        }
    }
    Ok(found)
}

/// Puts entries into an empty store, the last first.
pub(crate) fn set_each<S: Store>(store: &mut S, entries: &[Entry]) -> Result<(), AllocError>
    requires { S.contents store.old ≡ map.empty }
    ensures ok { OnOk result (S.contents store.new ≡ contents_of entries.now) }
    ensures marks { S.marks store.new ≡ S.marks store.old }
    ensures spare { S.spare store.new ≡ S.spare store.old }
{
    let mut left = entries.len();
    while left > 0 {
        left -= 1;
        let entry = &entries[left];
        store.set(entry.key.inner(), entry.value.inner())?;
    }
    Ok(())
}
