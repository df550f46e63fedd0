//! The new names of nodes, while nodes are dropped.

ghost use Rattle.std.specs.Prelude.{◌≡◌, ◌<◌, ◌≤◌, [], length, is_some, slice_set, Some, IfOk};
ghost use Rattle.nr_trienodes.specs.Naming.{new_name, HaveOwn, AreOldest};

use std::alloc::{AllocError, Global};
use std::marker::Model;

/// The new name of each node that is kept, by its old one. The oldest nodes have their own names, for
/// which no place is held. While nodes are marked, each node that is kept has its own name there.
#[derive(Drop)]
pub(crate) struct Names {
    oldest: usize,
    young: Vec<Option<u32>>,
}

impl Model for Names {
    ghost use Rattle.std.specs.Prelude.{List, Option, ℕ};

    ghost Value = { List (Option ℕ) };

    ghost use Rattle.nr_trienodes.specs.Own.{names_view};

    ghost view = { names_view };
}

impl Names {
    /// Names of no nodes. They take no memory.
    pub(crate) fn new(alloc: Global) -> Names
        ensures { result ≡ [] }
    {
        Names {
            oldest: 0,
            young: Vec::new(alloc),
        }
    }

    /// Names of so many nodes, in the memory of these: the oldest have their own ones, and the others
    /// none.
    pub(crate) fn anew(self, oldest: usize, count: usize) -> Result<Names, AllocError>
        requires { oldest ≤ count }
        ensures { IfOk result (λ names. AreOldest names oldest count) }
    {
        let Names {
            oldest: _,
            mut young,
        } = self;
        young.clear();
        young.resize(count - oldest, None)?;
        Ok(Names { oldest, young })
    }

    /// The new name of a node.
    pub(crate) fn get(&self, id: u32) -> Option<u32>
        requires { id < length self.now }
        ensures { result ≡ new_name self.now id }
    {
        if (id as usize) < self.oldest {
            return Some(id);
        }
        self.young[id as usize - self.oldest]
    }

    /// Whether a node is kept.
    pub(crate) fn is_kept(&self, id: u32) -> bool
        requires { id < length self.now }
        ensures { result ≡ is_some (new_name self.now id) }
    {
        self.get(id).is_some()
    }

    /// Gives a node a name. Behind nodes that all have their own names it is its own.
    pub(crate) fn set(&mut self, id: u32, name: u32)
        requires there { id < length self.old }
        requires own { HaveOwn self.old id → name ≡ id }
        ensures { self.new ≡ slice_set self.old id (Some name) }
    {
        if (id as usize) < self.oldest {
            return;
        }
        self.young[id as usize - self.oldest] = Some(name);
    }

    /// Keeps a node, for now under its own name.
    pub(crate) fn keep(&mut self, id: u32)
        requires { id < length self.old }
        ensures { self.new ≡ slice_set self.old id (Some id) }
    {
        self.set(id, id);
    }
}
