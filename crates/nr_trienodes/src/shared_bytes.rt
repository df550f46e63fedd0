//! The bytes that nodes share.

ghost use Rattle.std.specs.Prelude.{◌≡◌, ◌≤◌, length, IfOk};

use std::alloc::{AllocError, Global};
use std::marker::Model;

// Up to so many bytes take no memory of their own.
const SHORT: usize = 30;

#[derive(Drop)]
enum Form {
    Short { count: u8, bytes: [u8; 30] },
    Long(Vec<u8>),
}

/// The bytes of a value or a part, which its nodes share. They take no further memory where they are few.
#[derive(Drop)]
pub(crate) struct SharedBytes {
    form: Form,
}

impl Model for SharedBytes {
    ghost use Rattle.std.specs.Prelude.{List, ℕ};

    ghost Value = { List ℕ };

    ghost use Rattle.nr_trienodes.specs.SharedBytes.{shared_view, AreSharedBytes};

    ghost view = { shared_view };

    ghost invariant = { AreSharedBytes };
}

// Few bytes, in place.
fn short(bytes: &[u8]) -> SharedBytes
    requires { length bytes.now ≤ 30 }
    ensures { result ≡ bytes.now }
{
    let count = bytes.len();
    let mut short = [0; 30];
    for i in 0..count {
        short[i] = bytes[i];
    }
    SharedBytes {
        form: Form::Short {
            count: count as u8,
            bytes: short,
        },
    }
}

impl SharedBytes {
    /// A copy of bytes.
    pub(crate) fn of(alloc: Global, bytes: &[u8]) -> Result<SharedBytes, AllocError>
        ensures { IfOk result (λ copy. copy ≡ bytes.now) }
    {
        if bytes.len() <= SHORT {
            return Ok(short(bytes));
        }
        let long = Vec::from_slice(alloc, bytes)?;
        Ok(SharedBytes {
            form: Form::Long(long),
        })
    }

    /// The bytes.
    pub(crate) fn as_slice(&self) -> &[u8]
        ensures { result.now ≡ self.now }
    {
        match &self.form {
            Form::Short { count, bytes } => &bytes[..*count as usize],
            Form::Long(bytes) => bytes.as_slice(),
        }
    }
}
