//! The trie of what is kept, made from its leaves up.

ghost use Rattle.std.specs.Prelude.{◌≡◌, ◌≤◌, ◌<◌, ◌==◌, ◌++◌, ◌∷◌, [], Some, length, IfOk, OnOk, MatchOption};
ghost use Rattle.nr_triedef.specs.Root.{under};
ghost use Rattle.nr_store.specs.Tries.{cut};
ghost use Rattle.nr_remake.specs.Marks.{marked_whole};

use crate::nodes::{Top, alone, branch, field, with_front};
use crate::rests::{Rest, behind, front, here, under};
use nr_ids::Hash32;
use std::alloc::{AllocError, Global};
use std::marker::Model;

/// A branch that is being made: of which marks it is, and the children made so far, the lowest
/// nibble's first.
#[derive(Drop)]
pub(crate) struct Fork<'a> {
    keys: Vec<Rest<'a>>,
    shared: &'a [u8],
    rest: Vec<Rest<'a>>,
    made: Vec<Option<Top>>,
}

impl<'a> Model for Fork<'a> {
    ghost use Rattle.nr_store.specs.Tries.{Branching};
    ghost use Rattle.nr_remake.specs.Forks.{IsFork};

    ghost Value = { Branching };

    ghost view = { λ f. record { keys = f.keys.items; made = f.made.items } };

    ghost invariant = { IsFork };
}

impl<'a> Fork<'a> {
    fn of(alloc: Global, keys: Vec<Rest<'a>>) -> Result<Fork<'a>, AllocError>
        requires { 2 ≤ length keys.items }
        ensures keys { IfOk result (λ fork. fork.keys ≡ keys.entry.items) }
        ensures made { IfOk result (λ fork. fork.made ≡ []) }
    {
        let shared = front(&keys);
        let rest = behind(alloc, &keys, shared.len())?;
        Ok(Fork {
            keys,
            shared,
            rest,
            made: Vec::new(alloc),
        })
    }

    /// Whether all sixteen children are made.
    fn is_full(&self) -> bool
        ensures full { result ≡ (length self.now.made == 16) }
        ensures few { length self.now.made ≤ 16 }
    {
        self.made.len() == 16
    }

    /// The marks of the next child.
    fn next(&self, alloc: Global) -> Result<Vec<Rest<'a>>, AllocError>
        requires { length self.now.made < 16 }
        ensures { IfOk result (λ list. list.items ≡ under (length self.now.made) (cut self.now.keys)) }
    {
        under(alloc, &self.rest, self.made.len() as u8)
    }

    /// Takes the next child, which may be none.
    fn give(&mut self, child: Option<Top>) -> Result<(), AllocError>
        requires room { length self.old.made < 16 }
        requires next { child ≡ marked_whole (under (length self.old.made) (cut self.old.keys)) }
        ensures keys { self.new.keys ≡ self.old.keys }
        ensures made { OnOk result (self.new.made ≡ self.old.made ++ child ∷ []) }
    {
        self.made.push(child)?;
        Ok(())
    }

    /// The whole branch, with its front.
    fn close(&self, alloc: Global) -> Result<Top, AllocError>
        requires { length self.now.made ≡ 16 }
        ensures { IfOk result (λ s. Some s ≡ marked_whole self.now.keys) }
    {
        let value = value_of(&self.rest);
        let split = branch(alloc, value, &self.made)?;
        let found = with_front(alloc, self.shared, split)?;
        Ok(found)
    }
}

// The value of a branch of these.
fn value_of(rests: &[Rest<'_>]) -> Option<(u32, Hash32)>
    ensures { result ≡ marked_field (value_here rests.now) }
{
    match here(rests) {
        None => None,
        Some(known) => field(known),
    }
}

ghost use Rattle.nr_triedef.specs.Root.{value_here};
ghost use Rattle.nr_remake.specs.Marks.{marked_field};

/// Branches of which each waits for a child. Contracts see the last one first.
#[derive(Drop)]
pub(crate) struct Forks<'a> {
    forks: Vec<Fork<'a>>,
}

impl<'a> Model for Forks<'a> {
    ghost use Rattle.std.specs.Prelude.{List, reverse};
    ghost use Rattle.nr_store.specs.Tries.{Branching};

    ghost Value = { List Branching };

    ghost view = { λ f. reverse f.forks.items };
}

impl<'a> Forks<'a> {
    fn new(alloc: Global) -> Forks<'a>
        ensures { result ≡ [] }
    {
        Forks {
            forks: Vec::new(alloc),
        }
    }

    fn push(&mut self, fork: Fork<'a>) -> Result<(), AllocError>
        ensures { OnOk result (self.new ≡ fork.entry ∷ self.old) }
    {
        self.forks.push(fork)?;
        Ok(())
    }

    fn pop(&mut self) -> Option<Fork<'a>>
        ensures { MatchOption result (self.old ≡ []) (λ fork. self.old ≡ fork ∷ self.new) }
    {
        self.forks.pop()
    }
}

// The trie of at most one mark.
fn few(alloc: Global, marks: &[Rest<'_>]) -> Result<Option<Top>, AllocError>
    requires { length marks.now < 2 }
    ensures { IfOk result (λ found. found ≡ marked_whole marks.now) }
{
    match marks {
        [] => Ok(None),
        [one, ..] => {
            let found = alone(alloc, one.path(), one.known())?;
            Ok(Some(found))
        }
    }
}

// The trie of several marks. Branches that wait for a child stand in a list of their own, so the
// machine's stack doesn't grow with the paths.
fn several(alloc: Global, marks: Vec<Rest<'_>>) -> Result<Top, AllocError>
    requires { 2 ≤ length marks.items }
    ensures { IfOk result (λ found. Some found ≡ marked_whole marks.entry.items) }
{
    let mut above = Forks::new(alloc);
    let mut fork = Fork::of(alloc, marks)?;
    'made: loop {
        if fork.is_full() {
            let made = fork.close(alloc)?;
            match above.pop() {
                None => return Ok(made),
                Some(parent) => {
                    fork = parent;
                    fork.give(Some(made))?;
                }
            }
        } else {
            let child = fork.next(alloc)?;
            if child.len() < 2 {
                fork.give(few(alloc, &child)?)?;
            } else {
                let below = Fork::of(alloc, child)?;
                above.push(fork)?;
                fork = below;
            }
        }
    }
}

/// The hash and usage of the trie of these marks; none where there are none.
pub(crate) fn trie(alloc: Global, marks: Vec<Rest<'_>>) -> Result<Option<Top>, AllocError>
    ensures { IfOk result (λ found. found ≡ marked_whole marks.entry.items) }
{
    if marks.len() < 2 {
        return few(alloc, &marks);
    }
    let found = several(alloc, marks)?;
    Ok(Some(found))
}
