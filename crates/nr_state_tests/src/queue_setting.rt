//! Ids, and what the store below a state holds.

ghost use Rattle.std.specs.Prelude.{◌≡◌, true};

use crate::setting::{State, id_of};
use nr_columns::Entry;
use nr_ids::{AccountId, Hash32};
use std::alloc::{AllocError, Global};

/// Two data ids and an id of a receipt, as letters.
pub(crate) const A: Hash32 = Hash32(*b"aaaaaaaaaaaaaaaaaaaaaaaaaaaaaaaa");

pub(crate) const B: Hash32 = Hash32(*b"bbbbbbbbbbbbbbbbbbbbbbbbbbbbbbbb");

pub(crate) const R: Hash32 = Hash32(*b"rrrrrrrrrrrrrrrrrrrrrrrrrrrrrrrr");

/// The account `ab`.
pub(crate) fn ab(alloc: Global) -> Result<AccountId, AllocError> {
    id_of(alloc, b"ab")
}

fn is_entry(entry: &Entry, key: &[u8], value: &[u8]) -> bool {
    entry.key.inner() == key && entry.value.inner() == value
}

fn is_among(entries: &[Entry], key: &[u8], value: &[u8]) -> bool {
    for entry in entries {
        if is_entry(entry, key, value) {
            return true;
        }
    }
    false
}

/// Whether the store has this value under this key.
pub(crate) fn holds(state: &State, key: &[u8], value: &[u8]) -> Result<bool, AllocError>
    requires { state.now.whole ≡ true }
{
    let entries = state.entries()?;
    Ok(is_among(entries.inner(), key, value))
}
