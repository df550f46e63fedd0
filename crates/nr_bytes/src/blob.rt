//! Bytes that contracts see as a list of numbers.

ghost use Rattle.std.specs.Prelude.{IfOk, ◌≡◌};
ghost use Rattle.std.specs.Borrow.{sem};
ghost use Rattle.nr_bytes.specs.Lending.{lends_bytes};

use std::alloc::{AllocError, Global};
use std::marker::Model;

/// Bytes, over a vector. Contracts see the list of their values.
#[derive(Debug, Drop)]
pub struct Blob {
    bytes: Vec<u8>,
}

impl Model for Blob {
    ghost use Rattle.std.specs.Prelude.{List, ℕ};

    ghost Value = { List ℕ };

    ghost view = { λ a. a.bytes.items };
}

impl Blob {
    /// The bytes of a vector.
    pub fn of(bytes: Vec<u8>) -> Blob
        ensures { result ≡ bytes.items }
    {
        Blob { bytes }
    }

    /// Gives the vector back.
    pub fn into_inner(self) -> Vec<u8>
        ensures { result.items ≡ self }
    {
        self.bytes
    }

    /// Lends the bytes.
    pub fn inner(&self) -> &[u8]
        ensures { result.now ≡ self.now }
    {
        &self.bytes
    }

    /// Lends the vector for writing.
    pub fn vec_mut(&mut self) -> &mut Vec<u8>
        ensures value { result.now.items ≡ self.old }
        ensures* writes_back { sem 𝓛 (lends_bytes self.entry result) }
    {
        &mut self.bytes
    }

    /// The same bytes once more.
    ///
    /// # Errors
    ///
    /// Where memory ran out.
    pub fn duplicate(&self, alloc: Global) -> Result<Blob, AllocError>
        ensures { IfOk result (λ other. other ≡ self.now) }
    {
        let bytes = Vec::from_slice(alloc, &self.bytes)?;
        Ok(Blob { bytes })
    }
}
