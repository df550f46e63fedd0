//! Writing Borsh fields one after the other.

ghost use Rattle.std.specs.Prelude.{◌≡◌, ◌<◌, ◌^◌, ◌∷◌, [], length, IfOk};
ghost use Rattle.nr_bytes.specs.Numbers.{little};
ghost use Rattle.nr_bytes.specs.Writing.{Puts, counted_bytes};

use crate::blob::Blob;
use byteorder::{ByteOrder, LittleEndian};
use std::alloc::{AllocError, Global};
use std::marker::Model;

/// Writes Borsh fields one after the other, on the allocator with which it was made. Numbers are written with
/// their lowest byte first. A refusal is always want of memory, and leaves the writer as it was.
#[derive(Debug, Drop)]
pub struct Writer {
    bytes: Vec<u8>,
}

impl Model for Writer {
    ghost use Rattle.std.specs.Prelude.{List, ℕ};

    ghost Value = { List ℕ };

    ghost view = { λ a. a.bytes.items };
}

impl Writer {
    /// A writer that has written nothing.
    pub fn new(alloc: Global) -> Writer
        ensures { result ≡ [] }
    {
        Writer {
            bytes: Vec::new(alloc),
        }
    }

    /// A writer that has written nothing, with room for so many bytes.
    ///
    /// # Errors
    ///
    /// Where memory ran out.
    pub fn with_room(alloc: Global, room: usize) -> Result<Writer, AllocError>
        ensures { IfOk result (λ writer. writer ≡ []) }
    {
        let bytes = Vec::with_capacity(alloc, room)?;
        Ok(Writer { bytes })
    }

    /// Lets go what was written. The memory stays, for what is written next.
    pub fn clear(&mut self)
        ensures { self.new ≡ [] }
    {
        self.bytes.clear();
    }

    /// Lends the bytes that were written.
    pub fn written(&self) -> &[u8]
        ensures { result.now ≡ self.now }
    {
        &self.bytes
    }

    /// Writes bytes without a count (Borsh: Fixed sized arrays).
    ///
    /// # Errors
    ///
    /// Where memory ran out.
    pub fn put_raw(&mut self, v: &[u8]) -> Result<(), AllocError>
        ensures { Puts result self.old self.new v.now }
    {
        self.bytes.extend_from_slice(v)
    }

    /// Writes a number of 1 byte (Borsh: Integers).
    ///
    /// # Errors
    ///
    /// Where memory ran out.
    pub fn put_u8(&mut self, v: u8) -> Result<(), AllocError>
        ensures { Puts result self.old self.new (v ∷ []) }
    {
        Ok(self.bytes.push(v)?)
    }

    /// Writes a number of 2 bytes (Borsh: Integers).
    ///
    /// # Errors
    ///
    /// Where memory ran out.
    #[tactic(auto, using(crate::proofs::Numbers::written_2))]
    pub fn put_u16(&mut self, v: u16) -> Result<(), AllocError>
        ensures { Puts result self.old self.new (little 2 v) }
    {
        let mut field = [0; 2];
        LittleEndian::write_u16(&mut field, v);
        self.put_raw(&field)
    }

    /// Writes a number of 4 bytes (Borsh: Integers).
    ///
    /// # Errors
    ///
    /// Where memory ran out.
    #[tactic(auto, using(crate::proofs::Numbers::written_4))]
    pub fn put_u32(&mut self, v: u32) -> Result<(), AllocError>
        ensures { Puts result self.old self.new (little 4 v) }
    {
        let mut field = [0; 4];
        LittleEndian::write_u32(&mut field, v);
        self.put_raw(&field)
    }

    /// Writes a number of 8 bytes (Borsh: Integers).
    ///
    /// # Errors
    ///
    /// Where memory ran out.
    #[tactic(auto, using(crate::proofs::Numbers::written_8))]
    pub fn put_u64(&mut self, v: u64) -> Result<(), AllocError>
        ensures { Puts result self.old self.new (little 8 v) }
    {
        let mut field = [0; 8];
        LittleEndian::write_u64(&mut field, v);
        self.put_raw(&field)
    }

    /// Writes a number of 16 bytes (Borsh: Integers).
    ///
    /// # Errors
    ///
    /// Where memory ran out.
    #[tactic(auto, using(crate::proofs::Numbers::written_16))]
    pub fn put_u128(&mut self, v: u128) -> Result<(), AllocError>
        ensures { Puts result self.old self.new (little 16 v) }
    {
        let mut field = [0; 16];
        LittleEndian::write_u128(&mut field, v);
        self.put_raw(&field)
    }

    /// Writes the count of some bytes in 4 bytes, and the bytes (Borsh: Dynamic sized array, String). There are at
    /// most 2^32 - 1 of them.
    ///
    /// # Errors
    ///
    /// Where memory ran out.
    pub fn put_bytes(&mut self, v: &[u8]) -> Result<(), AllocError>
        requires { length v.now < 2 ^ 32 }
        ensures { Puts result self.old self.new (counted_bytes v.now) }
    {
        let start = self.bytes.len();
        self.put_u32(v.len() as u32)?;
        let put = self.bytes.extend_from_slice(v);
        if put.is_err() {
            self.bytes.truncate(start);
        }
        put
    }

    /// The bytes that were written.
    pub fn finish(self) -> Blob
        ensures { result ≡ self }
    {
        Blob::of(self.bytes)
    }
}
