//! Entries in the order of their keys, and slices of them that leave out the front of each key.

ghost use Rattle.std.specs.Prelude.{◌≡◌, ◌≤◌, ◌<◌, ◌+◌, ◌-◌, ◌^◌, true, false, None, Some, length, take, drop, IsSome};
ghost use Rattle.std.specs.Prelude.{IfOk, MatchOption};
ghost use Rattle.std.specs.List.{AllByRecursion};
ghost use Rattle.nr_triedef.specs.Node.{nibbles, IsNibbles};
ghost use Rattle.nr_triedef.specs.Root.{common, front, behind, value_here, under};
ghost use Rattle.nr_store.specs.Tries.{CanWalk, first, first_path, is_below, meet};

use nr_bytes::Blob;
use std::alloc::{AllocError, Global};
use std::marker::Model;

/// A key with its value. Contracts see the key as nibbles.
#[derive(Debug, Drop)]
pub struct Entry<'a> {
    key: &'a [u8],
    value: &'a [u8],
}

impl<'a> Model for Entry<'a> {
    ghost use Rattle.std.specs.Prelude.{List, ℕ};
    ghost use Rattle.nr_triedef.specs.Node.{nibbles};

    ghost Value = { List ℕ × List ℕ };

    ghost view = { λ e. (nibbles e.key.now, e.value.now) };
}

impl<'a> Entry<'a> {
    /// An entry of a key and its value.
    pub fn of(key: &'a [u8], value: &'a [u8]) -> Entry<'a>
        ensures value { result ≡ (nibbles key.now, value.now) }
        ensures small { IsNibbles result.0 }
    {
        Entry { key, value }
    }

    /// The nibble at an offset of the key, counted from 0; none past its end.
    fn nibble(&self, at: usize) -> Option<u8>
        ensures value { result ≡ first (drop at self.now.0) }
        ensures room { IsSome result → at + 1 < 2 ^ 64 }
    {
        if at / 2 >= self.key.len() {
            return None;
        }
        let byte = self.key[at / 2];
        if at % 2 == 0 {
            Some(byte / 16)
        } else {
            Some(byte % 16)
        }
    }

    /// The offset behind a nibble.
    fn next(&self, at: usize) -> usize
        requires { at < length self.now.0 }
        ensures { result ≡ at + 1 }
    {
        prove!(at / 2 < self.key.len());
        at + 1
    }

    /// Whether both keys have a nibble there, the same one.
    fn meets(&self, other: &Entry<'_>, at: usize) -> bool
        ensures value { result ≡ meet (drop at self.now.0) (drop at other.now.0) }
        ensures room { result ≡ true → at + 1 < 2 ^ 64 }
    {
        match (self.nibble(at), other.nibble(at)) {
            (Some(one), Some(two)) => one == two,
            _ => false,
        }
    }

    /// The offset, from one on, at which two keys part or one of them ends.
    fn parting(&self, other: &Entry<'_>, from: usize) -> usize
        ensures { result ≡ from + length (common (drop from self.now.0) (drop from other.now.0)) }
    {
        let mut at = from;
        while self.meets(other, at) {
            at += 1;
        }
        at
    }

    /// The nibbles from an offset on, up to another one or the key's end.
    fn part(&self, alloc: Global, from: usize, to: usize) -> Result<Blob, AllocError>
        ensures { IfOk result (λ part. part ≡ take (to - from) (drop from self.now.0)) }
    {
        let mut part = Vec::new(alloc);
        for at in from..to {
            match self.nibble(at) {
                Some(nibble) => part.push(nibble)?,
                None => return Ok(Blob::of(part)),
            }
        }
        Ok(Blob::of(part))
    }

    /// Whether the key ends at an offset, or has a nibble there that is less.
    fn is_below(&self, nibble: u8, at: usize) -> bool
        ensures { result ≡ is_below nibble (drop at self.now.0) }
    {
        match self.nibble(at) {
            Some(found) => found < nibble,
            None => true,
        }
    }
}

/// Entries in the order of their keys, without the first nibbles of each key.
#[derive(Debug, Drop)]
pub struct Span<'a> {
    entries: &'a [Entry<'a>],
    offset: usize,
}

impl<'a> Model for Span<'a> {
    ghost use Rattle.nr_triedef.specs.Root.{Paths, behind};
    ghost use Rattle.nr_store.specs.Tries.{CanWalk};

    ghost Value = { Paths };

    ghost view = { λ s. behind s.offset s.entries.now };

    ghost invariant = { λ s. CanWalk (behind s.offset s.entries.now) };
}

impl<'a> Span<'a> {
    /// The entries with their whole keys.
    pub fn of(entries: &'a [Entry<'a>]) -> Span<'a>
        requires { CanWalk entries.now }
        ensures { result ≡ entries.now }
    {
        Span { entries, offset: 0 }
    }

    /// How many entries there are.
    pub fn len(&self) -> usize
        ensures count { result ≡ length self.now }
        ensures order { CanWalk self.now }
    {
        self.entries.len()
    }

    /// How many keys from the front on end here or go on with a nibble below this one.
    fn reach(&self, nibble: u8) -> usize
        ensures within { result ≤ length self.now }
        ensures below { AllByRecursion (λ p. is_below nibble p.0 ≡ true) (take result self.now) }
        ensures above { AllByRecursion (λ p. is_below nibble p.0 ≡ false) (drop result self.now) }
    {
        let offset = self.offset;
        self.entries
            .partition_point(|entry| entry.is_below(nibble, offset))
    }

    /// Those that go on with the nibble, without it.
    pub fn under(&self, nibble: u8) -> Span<'a>
        requires { nibble < 16 }
        ensures { result ≡ under nibble self.now }
    {
        let start = self.reach(nibble);
        let end = self.reach(nibble + 1);
        let entries = &self.entries[start..end];
        if entries.is_empty() {
            return Span { entries, offset: 0 };
        }
        let offset = entries[0].next(self.offset);
        Span { entries, offset }
    }

    /// The same without their longest front.
    pub fn rest(&self) -> Span<'a>
        requires { 2 ≤ length self.now }
        ensures { result ≡ behind (length (front self.now)) self.now }
    {
        let first = &self.entries[0];
        let last = &self.entries[self.entries.len() - 1];
        let offset = first.parting(last, self.offset);
        Span {
            entries: self.entries,
            offset,
        }
    }

    /// The longest front that all keys share.
    ///
    /// # Errors
    ///
    /// Where memory ran out.
    pub fn front(&self, alloc: Global) -> Result<Blob, AllocError>
        requires { 2 ≤ length self.now }
        ensures value { IfOk result (λ shared. shared ≡ front self.now) }
        ensures small { IfOk result IsNibbles }
    {
        let first = &self.entries[0];
        let last = &self.entries[self.entries.len() - 1];
        let end = first.parting(last, self.offset);
        let shared = first.part(alloc, self.offset, end)?;
        Ok(shared)
    }

    /// The value of the key that ends here.
    pub fn value_here(&self) -> Option<&'a [u8]>
        ensures { MatchOption result (value_here self.now ≡ None) (λ value. value_here self.now ≡ Some value.now) }
    {
        if self.entries.is_empty() {
            return None;
        }
        let first = &self.entries[0];
        if first.nibble(self.offset).is_some() {
            return None;
        }
        Some(first.value)
    }

    /// What is left of the first key.
    ///
    /// # Errors
    ///
    /// Where memory ran out.
    pub fn first_key(&self, alloc: Global) -> Result<Blob, AllocError>
        requires { 0 < length self.now }
        ensures value { IfOk result (λ key. key ≡ (first_path self.now).0) }
        ensures small { IfOk result IsNibbles }
    {
        let first = &self.entries[0];
        let key = first.part(alloc, self.offset, 2 * first.key.len())?;
        Ok(key)
    }

    /// The value of the first key.
    pub fn first_value(&self) -> &'a [u8]
        requires { 0 < length self.now }
        ensures { result.now ≡ (first_path self.now).1 }
    {
        let first = &self.entries[0];
        first.value
    }
}
