//! Entries in the order of their keys.

ghost use Rattle.std.specs.Prelude.{◌≡◌};
ghost use Rattle.nr_bytes.specs.Numbers.{IsBytes};
ghost use Rattle.nr_entries.specs.Order.{rises};
ghost use Rattle.nr_entries.specs.Told.{AreBytes};

use nr_bytes::{Blob, Reader};
use nr_columns::Entry;
use std::cmp::Ordering;

/// Whether the keys of the entries rise, byte by byte.
pub fn rises(entries: &[Entry]) -> bool
    ensures { result ≡ rises entries.now }
{
    let mut rest = entries;
    while let [entry, after @ ..] = rest {
        if let [next, ..] = after
            && entry.key.inner().cmp(next.key.inner()) != Ordering::Less
        {
            return false;
        }
        rest = after;
    }
    true
}

/// That the key and the value of an entry are bytes.
fn entry_bytes(entry: &Entry)
    ensures { IsBytes entry.now.key × IsBytes entry.now.value }
{
    let _ = Reader::new(entry.key.inner()).rest();
    let _ = Reader::new(entry.value.inner()).rest();
}

/// That the keys and values of entries are bytes.
pub fn bytes_law(entries: &[Entry])
    ensures { AreBytes entries.now }
{
    let mut left = entries.len();
    while left > 0 {
        left -= 1;
        entry_bytes(&entries[left]);
    }
}
