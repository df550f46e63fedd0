//! Bytes that take no memory of their own where they are few.

ghost use Rattle.std.specs.Prelude.{◌≡◌, ◌≤◌, length, IfOk};

use std::alloc::{AllocError, Global};
use std::marker::Model;

// Up to so many bytes take no memory of their own.
const SHORT: usize = 30;

#[derive(Debug, Drop)]
enum Form {
    Short { count: u8, bytes: [u8; 30] },
    Long(Vec<u8>),
}

/// Bytes that don't change. They stand in place where they are at most 30, and else in memory of their own.
#[derive(Debug, Drop)]
pub struct CompactBytes {
    form: Form,
}

impl Model for CompactBytes {
    ghost use Rattle.std.specs.Prelude.{List, ℕ};

    ghost Value = { List ℕ };

    ghost use Rattle.nr_ids.specs.CompactBytes.{compact_view, AreCompactBytes};

    ghost view = { compact_view };

    ghost invariant = { AreCompactBytes };
}

// Few bytes, in place.
fn short(bytes: &[u8]) -> CompactBytes
    requires { length bytes.now ≤ 30 }
    ensures { result ≡ bytes.now }
{
    let count = bytes.len();
    let mut short = [0; 30];
    for i in 0..count {
        short[i] = bytes[i];
    }
    CompactBytes {
        form: Form::Short {
            count: count as u8,
            bytes: short,
        },
    }
}

impl CompactBytes {
    /// A copy of bytes.
    ///
    /// # Errors
    ///
    /// Where memory ran out.
    pub fn of(alloc: Global, bytes: &[u8]) -> Result<CompactBytes, AllocError>
        ensures { IfOk result (λ copy. copy ≡ bytes.now) }
    {
        if bytes.len() <= SHORT {
            return Ok(short(bytes));
        }
        let long = Vec::from_slice(alloc, bytes)?;
        Ok(CompactBytes {
            form: Form::Long(long),
        })
    }

    /// The same bytes once more.
    ///
    /// # Errors
    ///
    /// Where memory ran out.
    pub fn duplicate(&self, alloc: Global) -> Result<CompactBytes, AllocError>
        ensures { IfOk result (λ other. other ≡ self.now) }
    {
        CompactBytes::of(alloc, self.as_slice())
    }

    /// The bytes.
    pub fn as_slice(&self) -> &[u8]
        ensures { result.now ≡ self.now }
    {
        match &self.form {
            Form::Short { count, bytes } => &bytes[..*count as usize],
            Form::Long(bytes) => bytes.as_slice(),
        }
    }
}
