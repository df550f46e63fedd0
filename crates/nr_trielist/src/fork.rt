//! Branches that are being made, and those that wait for a child.

ghost use Rattle.std.specs.Prelude.{◌≡◌, ◌≤◌, ◌<◌, ◌-◌, ◌==◌, ◌++◌, ◌∷◌, [], Some, length, reverse, IfOk, OnOk};
ghost use Rattle.std.specs.Prelude.{MatchOption};
ghost use Rattle.nr_triedef.specs.Node.{IsNibbles, IsNode, summary};
ghost use Rattle.nr_triedef.specs.Root.{under, with_front, sixteen};
ghost use Rattle.std.specs.List.{flat_map};
ghost use Rattle.nr_store.specs.Tries.{cut, whole};
ghost use Rattle.nr_trielist.specs.Growing.{heads, head_nodes, all_nodes};

use crate::hashes::Hashes;
use crate::making::{Top, branch, extension, top_of};
use nr_store::Span;
use nr_triedef::Node;
use std::alloc::{AllocError, Global};
use std::marker::Model;

/// A branch that is being made: of which keys it is, and the children made so far, the highest
/// nibble's first. Contracts see the made ones in the order of their nibbles.
#[derive(Drop)]
pub(crate) struct Fork<'a> {
    keys: Span<'a>,
    rest: Span<'a>,
    made: Vec<Option<Top>>,
}

impl<'a> Model for Fork<'a> {
    ghost use Rattle.nr_store.specs.Tries.{Branching};
    ghost use Rattle.nr_trielist.specs.Forks.{IsFork};

    ghost Value = { Branching };

    ghost view = { λ f. record { keys = f.keys; made = f.made.items } };

    ghost invariant = { IsFork };
}

impl<'a> Fork<'a> {
    /// A branch of some keys, without children yet.
    pub(crate) fn of(alloc: Global, keys: Span<'a>) -> Fork<'a>
        requires { 2 ≤ length keys }
        ensures keys { result.keys ≡ keys.entry }
        ensures made { result.made ≡ [] }
    {
        let rest = keys.rest();
        Fork {
            keys,
            rest,
            made: Vec::new(alloc),
        }
    }

    /// Whether all sixteen children are made.
    pub(crate) fn is_full(&self) -> bool
        ensures full { result ≡ (length self.now.made == 16) }
        ensures few { length self.now.made ≤ 16 }
    {
        self.made.len() == 16
    }

    /// The keys of the next child.
    pub(crate) fn next(&self) -> Span<'a>
        requires { length self.now.made < 16 }
        ensures { result ≡ under (15 - length self.now.made) (cut self.now.keys) }
    {
        self.rest.under(15 - self.made.len() as u8)
    }

    /// Takes the next child, which may be none.
    pub(crate) fn give(&mut self, child: Option<Top>) -> Result<(), AllocError>
        requires room { length self.old.made < 16 }
        requires next { child ≡ whole (under (15 - length self.old.made) (cut self.old.keys)) }
        ensures keys { self.new.keys ≡ self.old.keys }
        ensures made { OnOk result (self.new.made ≡ child ∷ self.old.made) }
    {
        self.made.insert(0, child)?;
        Ok(())
    }

    /// The whole branch, with its front, whose nodes are listed behind the others.
    pub(crate) fn close(
        &self,
        alloc: Global,
        nodes: &mut Vec<Node>,
        hashes: &mut Hashes,
    ) -> Result<Top, AllocError>
        requires { length self.now.made ≡ 16 }
        ensures top { IfOk result (λ s. Some s ≡ whole self.now.keys) }
        ensures nodes { OnOk result (nodes.new.items ≡ nodes.old.items ++ reverse (heads self.now.keys)) }
        ensures list { all_nodes self.now.keys ≡ heads self.now.keys
            ++ flat_map (λ n. all_nodes (under n (cut self.now.keys))) sixteen }
    {
        let node = branch(&self.rest, &self.made, hashes)?;
        let shared = self.keys.front(alloc)?;
        fronted(alloc, shared.inner(), node, nodes)
    }
}

// A branch behind a front, which may be empty.
fn fronted(
    alloc: Global,
    shared: &[u8],
    node: Node,
    nodes: &mut Vec<Node>,
) -> Result<Top, AllocError>
    requires form { IsNode node }
    requires small { IsNibbles shared.now }
    ensures top { IfOk result (λ s. s ≡ with_front shared.now (summary node)) }
    ensures nodes { OnOk result (nodes.new.items ≡ nodes.old.items ++ reverse (head_nodes shared.now node)) }
{
    let top = top_of(alloc, &node)?;
    nodes.push(node)?;
    if shared.is_empty() {
        return Ok(top);
    }
    let over = extension(alloc, shared, top)?;
    let top = top_of(alloc, &over)?;
    nodes.push(over)?;
    Ok(top)
}

/// Branches of which each waits for a child. Contracts see the last one first.
#[derive(Drop)]
pub(crate) struct Forks<'a> {
    forks: Vec<Fork<'a>>,
}

impl<'a> Model for Forks<'a> {
    ghost use Rattle.std.specs.Prelude.{List, reverse};
    ghost use Rattle.nr_store.specs.Tries.{Branching};

    ghost Value = { List Branching };

    ghost view = { λ f. reverse f.forks.items };
}

impl<'a> Forks<'a> {
    pub(crate) fn new(alloc: Global) -> Forks<'a>
        ensures { result ≡ [] }
    {
        Forks {
            forks: Vec::new(alloc),
        }
    }

    pub(crate) fn push(&mut self, fork: Fork<'a>) -> Result<(), AllocError>
        ensures { OnOk result (self.new ≡ fork.entry ∷ self.old) }
    {
        self.forks.push(fork)?;
        Ok(())
    }

    pub(crate) fn pop(&mut self) -> Option<Fork<'a>>
        ensures { MatchOption result (self.old ≡ []) (λ fork. self.old ≡ fork ∷ self.new) }
    {
        self.forks.pop()
    }
}
