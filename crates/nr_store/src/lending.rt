//! Entries of a plain store, lent.

ghost use Rattle.std.specs.Prelude.{◌≡◌, IfOk};
ghost use Rattle.std.specs.FinMap as map;
ghost use Rattle.nr_store.specs.Plain.{held_in};

use crate::slots::Slots;
use std::alloc::{AllocError, Global};
use std::marker::Model;

/// A key and its value, both lent. Contracts see them as a pair.
#[derive(Debug, Drop)]
pub struct Lent<'a> {
    key: &'a [u8],
    value: &'a [u8],
}

impl<'a> Model for Lent<'a> {
    ghost use Rattle.std.specs.Prelude.{List, ℕ};

    ghost Value = { List ℕ × List ℕ };

    ghost view = { λ e. (e.key.now, e.value.now) };
}

impl<'a> Lent<'a> {
    pub(crate) fn of(key: &'a [u8], value: &'a [u8]) -> Lent<'a>
        ensures { result ≡ (key.now, value.now) }
    {
        Lent { key, value }
    }

    /// The bytes of the key.
    pub fn key(&self) -> &'a [u8]
        ensures { result.now ≡ self.now.0 }
    {
        self.key
    }

    /// The bytes of the value.
    pub fn value(&self) -> &'a [u8]
        ensures { result.now ≡ self.now.1 }
    {
        self.value
    }
}

/// The entries of the slots that have a value, in the order of their keys.
pub(crate) fn lent_entries(alloc: Global, slots: &Slots) -> Result<Vec<Lent<'_>>, AllocError>
    ensures { IfOk result (λ entries. entries.items ≡ map.entries (held_in slots.now.entries)) }
{
    let mut entries = Vec::with_capacity(alloc, slots.len())?;
    for (key, slot) in slots.iter() {
        if let Some(value) = slot {
            entries.push(Lent::of(key, value))?;
        }
    }
    Ok(entries)
}
