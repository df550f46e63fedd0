//! The trie of nodes under the changes that wait.

ghost use Rattle.std.specs.Prelude.{◌≡◌, ◌+◌, ◌≤◌, length, IfOk, OnOk, OnErr};
ghost use Rattle.std.specs.Option.{option_copied};
ghost use Rattle.std.specs.FinMap as map;
ghost use Rattle.nr_triedef.specs.Root.{root_of};
ghost use Rattle.nr_triedef.specs.Stores.{keys_below, IsSized};
ghost use Rattle.nr_trienodes.specs.Merging.{merged, merge_weight};
ghost use Rattle.nr_trieupdate.specs.Room.{AreShort};

use crate::drafting::draft_of;
use crate::room::{Limits, first_limits};
use nr_bytes::{Blob, List};
use nr_triedef::{NodeHash, Steps};
use nr_trienodes::{Change, CountedRoot, Nodes};
use std::alloc::{AllocError, Global};
use std::marker::Model;
use std::sync::ledger::Ledger;

/// A finite map that keeps the nodes of its trie, with the hashes of those that were hashed. Changes
/// make the nodes of their keys' ways anew, each one once.
#[derive(Drop)]
pub(crate) struct Base {
    nodes: Nodes,
    // The root, and how many entries there are.
    top: CountedRoot,
    // When the arena is trimmed before a change.
    limits: Limits,
}

impl Model for Base {
    ghost use Rattle.nr_trieupdate.specs.BaseView.{BaseView, base_code};

    ghost Value = { BaseView };

    ghost coded = { base_code };

    ghost use Rattle.nr_trieupdate.specs.Bases.{base_view, IsBase};

    ghost view = { base_view };

    ghost invariant = { IsBase };
}

impl Base {
    /// The empty map. It takes no memory.
    pub(crate) fn new(alloc: Global) -> Base
        ensures contents { result.contents ≡ map.empty }
        ensures unhashed { result.unhashed ≡ 0 }
    {
        Base {
            nodes: Nodes::new(alloc),
            top: CountedRoot::none(),
            limits: first_limits(),
        }
    }

    /// How many entries it holds.
    pub(crate) fn count(&self) -> usize
        ensures { result ≡ length (map.entries self.now.contents) }
    {
        self.top.count
    }

    /// Does nothing. It tells that what is held keeps within the sizes of a store.
    pub(crate) fn sizes(&self)
        ensures { IsSized self.now.contents }
    {
        let _top = self.top;
    }

    /// The value at a key; `None` exactly where there is none.
    pub(crate) fn get(&self, key: &[u8]) -> Option<&[u8]>
        ensures { option_copied result ≡ map.get self.now.contents key.now }
    {
        self.nodes.find(self.top.root, key)
    }

    /// The keys that begin with a prefix, in the order of their bytes.
    ///
    /// # Errors
    ///
    /// Where memory ran out.
    pub(crate) fn below(&self, prefix: &[u8]) -> Result<List<Blob>, AllocError>
        ensures { IfOk result (λ keys. keys ≡ keys_below prefix.now self.now.contents) }
    {
        self.nodes.below(self.top.root, prefix)
    }

    /// Works changes in, the first one first, whose values have so many bytes.
    ///
    /// # Errors
    ///
    /// Where memory ran out. What is held is then the same.
    #[tactic(auto, using(crate::proofs::Standing::level_moved))]
    pub(crate) fn merge(&mut self, changes: &[Change<'_>], bytes: usize) -> Result<(), AllocError>
        requires sized { IsSized (merged changes.now self.old.contents) }
        requires short { AreShort changes.now }
        ensures ok { OnOk result (self.new.contents ≡ merged changes.now self.old.contents) }
        ensures err { OnErr result (self.new.contents ≡ self.old.contents) }
        ensures unhashed { OnOk result (self.new.unhashed ≤ self.old.unhashed + merge_weight changes.now) }
        ensures less { OnErr result (self.new.unhashed ≤ self.old.unhashed) }
    {
        let draft = draft_of(
            &mut self.nodes,
            &mut self.top,
            &mut self.limits,
            changes,
            bytes,
        )?;
        self.top = draft;
        Ok(())
    }

    /// The Merkle root of what is held. Each node that is hashed is one of the `steps`.
    ///
    /// # Errors
    ///
    /// Where memory ran out.
    #[tactic(auto, using(crate::proofs::Standing::level_moved, crate::proofs::Standing::moved_same))]
    pub(crate) fn root<L: Ledger>(&mut self, steps: &mut Steps<L>) -> Result<NodeHash, AllocError>
        ensures root { IfOk result (λ root. root ≡ (root_of self.old.contents).hash) }
        ensures contents { self.new.contents ≡ self.old.contents }
        ensures steps { steps.new ≤ steps.old + self.old.unhashed }
        ensures unhashed { self.new.unhashed ≤ self.old.unhashed }
        ensures hashed { OnOk result (self.new.unhashed ≡ 0) }
    {
        let hash = self.nodes.hash(self.top.root, steps)?;
        Ok(hash)
    }

    /// The Merkle root of what would be held once changes are worked in, the first one first, whose
    /// values have so many bytes. What is held stays.
    ///
    /// # Errors
    ///
    /// Where memory ran out.
    #[tactic(auto, using(crate::proofs::Standing::level_moved, crate::proofs::Standing::moved_kept))]
    pub(crate) fn root_with<L: Ledger>(
        &mut self,
        changes: &[Change<'_>],
        bytes: usize,
        steps: &mut Steps<L>,
    ) -> Result<NodeHash, AllocError>
        requires { AreShort changes.now }
        ensures root { IfOk result (λ root. root ≡ (root_of (merged changes.now self.old.contents)).hash) }
        ensures contents { self.new.contents ≡ self.old.contents }
        ensures steps { steps.new ≤ steps.old + (self.old.unhashed + merge_weight changes.now) }
        ensures unhashed { self.new.unhashed ≤ self.old.unhashed }
    {
        let draft = draft_of(
            &mut self.nodes,
            &mut self.top,
            &mut self.limits,
            changes,
            bytes,
        )?;
        let hash = self.nodes.hash(draft.root, steps)?;
        Ok(hash)
    }
}
