//! How many nodes a root hashes.

ghost use Rattle.std.specs.Prelude.{◌≡◌, ◌<◌, ◌≤◌, ◌+◌, [], OnOk};

use crate::roots::set_three;
use nr_triedef::{NodeHash, Steps, Store, bytes_of};
use nr_trieupdate::TrieStore;
use std::alloc::AllocError;
use std::marker::Brand;
use std::sync::ledger::{Blank, Ledger};
use std::test::Fail;

/// The root after one change, where a root was computed last: at most 2 · 4 + 3 nodes are hashed, as
/// the key has four nibbles.
fn root_after_change<L: Ledger>(
    store: &mut TrieStore,
    steps: &mut Steps<L>,
) -> Result<NodeHash, AllocError>
    requires marks { store.old.marks ≡ [] }
    requires hashed { store.old.unhashed ≡ 0 }
    ensures steps { steps.new ≤ steps.old + 11 }
    ensures hashed { OnOk result (store.new.unhashed ≡ 0) }
{
    store.set(b"ab", b"abd")?;
    let root = store.root(steps)?;
    Ok(root)
}

/// The root directly after a root: no node is hashed.
fn root_again<L: Ledger>(
    store: &mut TrieStore,
    steps: &mut Steps<L>,
) -> Result<NodeHash, AllocError>
    requires hashed { store.old.unhashed ≡ 0 }
    ensures steps { steps.new ≤ steps.old }
{
    let root = store.root(steps)?;
    Ok(root)
}

/// Whether the two roots after a change of the three keys are alike.
fn counted<L: Ledger>(store: &mut TrieStore, blank: Blank) -> Result<bool, AllocError>
    requires name { blank.name ≡ L.name }
    requires parts { blank.parts ≡ L.parts }
    requires whole { 0 < blank.parts }
    requires marks { store.old.marks ≡ [] }
{
    let mut steps = Steps::<L>::new(blank);
    set_three(store)?;
    store.root(&mut steps)?;
    let changed = root_after_change(store, &mut steps)?;
    let again = root_again(store, &mut steps)?;
    Ok(bytes_of(&changed) == bytes_of(&again))
}

fn two_roots(store: &mut TrieStore) -> Result<bool, AllocError>
    requires { store.old.marks ≡ [] }
{
    counted::<Brand>(store, Blank::new(1))
}

#[test]
fn a_second_root_is_the_first(rt: HostRuntime) -> Result<(), Fail> {
    assert!(rt; two_roots(&mut TrieStore::new(rt.alloc()))?);
    Ok(())
}
