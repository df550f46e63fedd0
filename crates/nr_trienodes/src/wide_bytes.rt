//! More bytes that nodes share, in place.

ghost use Rattle.std.specs.Prelude.{◌≡◌, ◌≤◌, length};

use std::marker::Model;

/// At most 94 bytes of a value or a part, which its nodes share. They take no further memory.
#[derive(Drop)]
pub(crate) struct WideBytes {
    count: u8,
    bytes: [u8; 94],
}

impl Model for WideBytes {
    ghost use Rattle.std.specs.Prelude.{List, ℕ};

    ghost Value = { List ℕ };

    ghost use Rattle.nr_trienodes.specs.WideBytes.{wide_view, AreWideBytes};

    ghost view = { wide_view };

    ghost invariant = { AreWideBytes };
}

impl WideBytes {
    /// A copy of bytes.
    pub(crate) fn of(bytes: &[u8]) -> WideBytes
        requires { length bytes.now ≤ 94 }
        ensures { result ≡ bytes.now }
    {
        let count = bytes.len();
        let mut wide = [0; 94];
        for i in 0..count {
            wide[i] = bytes[i];
        }
        WideBytes {
            count: count as u8,
            bytes: wide,
        }
    }

    /// The bytes.
    pub(crate) fn as_slice(&self) -> &[u8]
        ensures { result.now ≡ self.now }
    {
        &self.bytes[..self.count as usize]
    }
}
