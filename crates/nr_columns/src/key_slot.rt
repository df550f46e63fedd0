//! Keys of the trie, in place.

ghost use Rattle.std.specs.Prelude.{◌≡◌, ◌≤◌, ◌+◌, ◌++◌, [], length, take, OnOk};

use std::alloc::AllocError;
use std::marker::Model;

// The most bytes: one for the column, an id of 64, one more, and a public key of 65.
const MOST: usize = 131;

/// A key of the trie, of at most 131 bytes. It takes no memory, and contracts see its bytes.
#[derive(Drop)]
pub(crate) struct KeySlot {
    count: usize,
    bytes: [u8; 131],
}

impl Model for KeySlot {
    ghost use Rattle.std.specs.Prelude.{List, ℕ};

    ghost Value = { List ℕ };

    ghost use Rattle.nr_columns.specs.Slots.{slot_view, IsSlot};

    ghost view = { slot_view };

    ghost invariant = { IsSlot };
}

// Puts bytes behind those in front of a place.
fn put_at(bytes: &mut [u8; 131], at: usize, part: &[u8])
    requires { at + length part.now ≤ 131 }
    ensures { take (at + length part.now) bytes.new ≡ take at bytes.old ++ part.now }
{
    let end = at + part.len();
    bytes[at..end].copy_from_slice(part);
}

impl KeySlot {
    /// No bytes.
    pub(crate) fn new() -> KeySlot
        ensures { result ≡ [] }
    {
        KeySlot {
            count: 0,
            bytes: [0; 131],
        }
    }

    /// Puts bytes behind those that are there.
    ///
    /// # Errors
    ///
    /// Where there would be more than 131, which counts as want of memory.
    pub(crate) fn put(&mut self, part: &[u8]) -> Result<(), AllocError>
        ensures { OnOk result (self.new ≡ self.old ++ part.now) }
    {
        let size = part.len();
        if size > MOST - self.count {
            return Err(AllocError);
        }
        put_at(&mut self.bytes, self.count, part);
        self.count += size;
        Ok(())
    }

    /// The bytes.
    pub(crate) fn as_slice(&self) -> &[u8]
        ensures { result.now ≡ self.now }
    {
        &self.bytes[..self.count]
    }
}
