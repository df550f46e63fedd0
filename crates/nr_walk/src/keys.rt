//! Entries as the keys of a trie.

ghost use Rattle.std.specs.Prelude.{◌≡◌, ◌++◌, ◌∷◌, [], IfOk, OnOk};
ghost use Rattle.nr_triedef.specs.Node.{nibbles, IsNibbles};
ghost use Rattle.nr_triedef.specs.Root.{paths};
ghost use Rattle.nr_store.specs.Tries.{CanWalk};
ghost use Rattle.nr_columns.specs.Entries.{pairs_of, InOrder};

use nr_columns::Entry;
use nr_store::Entry as Key;
use std::alloc::{AllocError, Global};

/// The keys of entries, with their values, in their order.
///
/// # Errors
///
/// Where memory ran out.
pub fn keys_of(alloc: Global, entries: &[Entry]) -> Result<Vec<Key<'_>>, AllocError>
    requires { InOrder entries.now }
    ensures value { IfOk result (λ keys. keys.items ≡ paths (pairs_of entries.now)) }
    ensures order { IfOk result (λ keys. CanWalk keys.items) }
{
    let mut keys = Vec::new(alloc);
    for entry in entries {
        push_key(&mut keys, entry)?;
    }
    Ok(keys)
}

fn push_key<'a>(keys: &mut Vec<Key<'a>>, entry: &'a Entry) -> Result<(), AllocError>
    ensures value { OnOk result (keys.new.items ≡ keys.old.items ++ (nibbles entry.now.key, entry.now.value) ∷ []) }
    ensures small { IsNibbles (nibbles entry.now.key) }
{
    keys.push(Key::of(entry.key.inner(), entry.value.inner()))?;
    Ok(())
}
