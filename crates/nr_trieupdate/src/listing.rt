//! What is held once waiting changes are made: a value, and keys below a prefix.

ghost use Rattle.std.specs.Prelude.{◌≡◌, ◌++◌, ◌∷◌, List as Items, ℕ, IfOk, OnOk};
ghost use Rattle.std.specs.Option.{option_copied};
ghost use Rattle.std.specs.FinMap as map;
ghost use Rattle.nr_triedef.specs.Stores.{keys_below};
ghost use Rattle.nr_trieupdate.specs.Overlays.{kept, over, IsGathered};

use crate::base::Base;
use nr_bytes::{Blob, List};
use nr_store::PlainStore;
use nr_triedef::Store;
use std::alloc::{AllocError, Global};

/// The value that a waiting change gives its key; `None` where it takes the key out.
pub(crate) fn value_in(held: &[u8]) -> Option<&[u8]>
    ensures { option_copied result ≡ kept held.now }
{
    if held.len() == 0 || held[0] == 0 {
        return None;
    }
    Some(&held[1..])
}

/// The value at a key once the changes are made.
pub(crate) fn value_at<'a>(base: &'a Base, changes: &'a PlainStore, key: &[u8]) -> Option<&'a [u8]>
    ensures { option_copied result ≡ map.get (over changes.now.contents base.now.contents) key.now }
{
    match changes.get(key) {
        None => base.get(key),
        Some(held) => value_in(held),
    }
}

// Puts the entry at a key, where there is one.
fn gather_one(
    found: &mut PlainStore,
    base: &Base,
    changes: &PlainStore,
    key: &[u8],
) -> Result<(), AllocError>
    ensures { (keys : Items (Items ℕ)) → IsGathered (over changes.now.contents base.now.contents) found.old.contents
        keys → OnOk result (IsGathered (over changes.now.contents base.now.contents) found.new.contents
        (key.now ∷ keys)) }
{
    match value_at(base, changes, key) {
        None => Ok(()),
        Some(value) => {
            found.set(key, value)?;
            Ok(())
        }
    }
}

// Puts the entries at these keys, where there are such.
fn gather(
    found: &mut PlainStore,
    base: &Base,
    changes: &PlainStore,
    keys: &[Blob],
) -> Result<(), AllocError>
    ensures { (other : Items (Items ℕ)) → IsGathered (over changes.now.contents base.now.contents) found.old.contents
        other → OnOk result (IsGathered (over changes.now.contents base.now.contents) found.new.contents
        (keys.now ++ other)) }
{
    let mut left = keys.len();
    while left > 0 {
        left -= 1;
        gather_one(found, base, changes, keys[left].inner())?;
    }
    Ok(())
}

/// The keys that begin with a prefix once the changes are made, in the order of their bytes.
///
/// # Errors
///
/// Where memory ran out.
pub(crate) fn keys_over(
    alloc: Global,
    base: &Base,
    changes: &PlainStore,
    prefix: &[u8],
) -> Result<List<Blob>, AllocError>
    ensures { IfOk result (λ keys. keys ≡ keys_below prefix.now (over changes.now.contents base.now.contents)) }
{
    let there = base.below(prefix)?;
    let changed = changes.below(prefix)?;
    if changed.inner().is_empty() {
        return Ok(there);
    }
    let mut found = PlainStore::new(alloc);
    gather(&mut found, base, changes, there.inner())?;
    gather(&mut found, base, changes, changed.inner())?;
    let keys = found.below(prefix)?;
    Ok(keys)
}
