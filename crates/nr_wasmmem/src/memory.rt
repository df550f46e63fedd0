//! The bytes of a guest.

ghost use Rattle.std.specs.Prelude.{◌≡◌, ◌+◌, ◌*◌, ◌≤◌, ◌<◌, [], length, IfOk, Some, None, MatchResult};
ghost use Rattle.std.specs.Prelude.{MatchOption};
ghost use Rattle.nr_bytes.specs.Numbers.{little, number};
ghost use Rattle.nr_wasmmem.specs.Bytes.{MemoryView, IsMemory, IsWidth, pages_of, zeros, range_in, number_in};
ghost use Rattle.nr_wasmmem.specs.Bytes.{number_over, put_over, Finds, Puts, Grows};

use crate::fault::OutOfBounds;
use std::alloc::{AllocError, Global};
use std::marker::Model;

/// A page of a memory has 64 KiB.
const PAGE: usize = 0x1_0000;

/// The memory of a guest: bytes in whole pages of 64 KiB, and how many pages it may have. Contracts see both.
#[derive(Drop)]
pub struct Memory {
    bytes: Vec<u8>,
    most: u32,
}

impl Model for Memory {
    ghost Value = { MemoryView };

    ghost view = { λ m. record { bytes = m.bytes.items; most = m.most } };

    ghost invariant = { λ m. IsMemory (record { bytes = m.bytes.items; most = m.most }) };
}

impl Memory {
    /// A memory of no pages that can't grow. It takes no memory.
    pub fn empty(alloc: Global) -> Memory
        ensures { result ≡ record { bytes = []; most = 0 } }
    {
        Memory {
            bytes: Vec::new(alloc),
            most: 0,
        }
    }

    /// A memory of `pages` pages of zeros that may have `most` pages.
    ///
    /// # Errors
    ///
    /// Where memory ran out.
    pub fn new(alloc: Global, pages: u32, most: u32) -> Result<Memory, AllocError>
        requires within { pages ≤ most }
        requires small { most ≤ 2048 }
        ensures { IfOk result (λ m. m ≡ record { bytes = zeros pages; most = most }) }
    {
        let bytes = vec![in alloc; 0; PAGE * pages as usize]?;
        Ok(Memory { bytes, most })
    }

    /// How many pages it has, at most 2048.
    pub fn pages(&self) -> u32
        ensures value { result ≡ pages_of self.now.bytes }
        ensures memory { IsMemory self.now }
    {
        (self.bytes.len() / PAGE) as u32
    }

    /// All bytes.
    pub fn bytes(&self) -> &[u8]
        ensures { result.now ≡ self.now.bytes }
    {
        &self.bytes
    }

    /// The bytes of a range that begins at `at`; an empty one may begin at the end.
    ///
    /// # Errors
    ///
    /// `OutOfBounds` exactly where the range isn't inside.
    #[inline]
    #[tactic(auto, unfolding(crate::specs::Bytes::range_in))]
    pub fn range(&self, at: u64, count: u64) -> Result<&[u8], OutOfBounds>
        ensures value { MatchResult result (λ part. range_in self.now.bytes at count ≡ Some part.now)
            (λ e. range_in self.now.bytes at count ≡ None) }
        ensures len { IfOk result (λ part. length part.now ≡ count) }
    {
        match bounds(self.bytes.len(), at, count) {
            Some((start, end)) => Ok(&self.bytes[start..end]),
            None => Err(OutOfBounds),
        }
    }

    /// Puts bytes over a range that begins at `at`.
    ///
    /// # Errors
    ///
    /// `OutOfBounds` exactly where the range isn't inside; the memory is then as it was.
    #[inline]
    #[tactic(auto, unfolding(crate::specs::Bytes::put_over))]
    pub fn put(&mut self, at: u64, part: &[u8]) -> Result<(), OutOfBounds>
        ensures { Puts result self.old self.new (put_over self.old.bytes at part.now) }
    {
        match bounds(self.bytes.len(), at, part.len() as u64) {
            Some((start, end)) => {
                self.bytes[start..end].copy_from_slice(part);
                Ok(())
            }
            None => Err(OutOfBounds),
        }
    }

    /// The number in `width` bytes from `at` on, the lowest byte first. `width` is 1, 2, 4 or 8.
    ///
    /// # Errors
    ///
    /// `OutOfBounds` exactly where one of the bytes isn't inside.
    #[inline]
    pub fn load(&self, at: u64, width: u32) -> Result<u64, OutOfBounds>
        requires { IsWidth width }
        ensures { Finds result (number_in self.now.bytes at width) }
    {
        let bytes = self.range(at, u64::from(width))?;
        Ok(number_of(bytes, width))
    }

    /// Writes the lowest `width` bytes of a number from `at` on, the lowest byte first. `width` is 1, 2, 4
    /// or 8.
    ///
    /// # Errors
    ///
    /// `OutOfBounds` exactly where one of the bytes isn't inside; the memory is then as it was.
    #[inline]
    pub fn store(&mut self, at: u64, width: u32, value: u64) -> Result<(), OutOfBounds>
        requires { IsWidth width }
        ensures { Puts result self.old self.new (number_over self.old.bytes at width value) }
    {
        match width {
            1 => self.put(at, &low_1(value)),
            2 => self.put(at, &low_2(value)),
            4 => self.put(at, &low_4(value)),
            _ => self.put(at, &low_8(value)),
        }
    }

    /// Adds pages of zeros, and answers how many pages there were; `None` exactly where there may not be so
    /// many, and the memory is then as it was.
    ///
    /// # Errors
    ///
    /// Where memory ran out; the guest's memory is then as it was.
    pub fn grow(&mut self, pages: u32) -> Result<Option<u32>, AllocError>
        ensures { Grows result self.old self.new pages }
    {
        let before = self.pages();
        if u64::from(before) + u64::from(pages) > u64::from(self.most) {
            return Ok(None);
        }
        self.bytes.resize(PAGE * (before + pages) as usize, 0)?;
        Ok(Some(before))
    }
}

/// The start and the end of a range, where it is inside.
#[inline]
fn bounds(size: usize, at: u64, count: u64) -> Option<(usize, usize)>
    ensures { MatchOption result (size < at + count) (λ r. (r.0 ≡ at) × (r.1 ≡ at + count) × (at + count ≤ size)) }
{
    let size = size as u64;
    if at <= size && count <= size - at {
        Some((at as usize, at as usize + count as usize))
    } else {
        None
    }
}

/// The number that 1, 2, 4 or 8 bytes are, the lowest byte first.
#[inline]
#[tactic(auto, using(nr_bytes::proofs::Numbers::number_1))]
fn number_of(bytes: &[u8], width: u32) -> u64
    requires width { IsWidth width }
    requires count { length bytes.now ≡ width }
    ensures { result ≡ number bytes.now }
{
    match width {
        1 => u64::from(bytes[0]),
        2 => u64::from(number_of_2(bytes)),
        4 => u64::from(number_of_4(bytes)),
        _ => number_of_8(bytes),
    }
}

#[inline]
#[tactic(auto, using(crate::proofs::Access::read_2))]
fn number_of_2(bytes: &[u8]) -> u16
    requires { length bytes.now ≡ 2 }
    ensures { result ≡ number bytes.now }
{
    u16::from_le_bytes([bytes[0], bytes[1]])
}

#[inline]
#[tactic(auto, using(crate::proofs::Access::read_4))]
fn number_of_4(bytes: &[u8]) -> u32
    requires { length bytes.now ≡ 4 }
    ensures { result ≡ number bytes.now }
{
    u32::from_le_bytes([bytes[0], bytes[1], bytes[2], bytes[3]])
}

#[inline]
#[tactic(auto, using(crate::proofs::Access::read_8))]
fn number_of_8(bytes: &[u8]) -> u64
    requires { length bytes.now ≡ 8 }
    ensures { result ≡ number bytes.now }
{
    u64::from_le_bytes([
        bytes[0], bytes[1], bytes[2], bytes[3], bytes[4], bytes[5], bytes[6], bytes[7],
    ])
}

/// The lowest byte of a number.
#[inline]
#[tactic(auto, using(crate::proofs::Access::low_1))]
fn low_1(value: u64) -> [u8; 1]
    ensures { result ≡ little 1 value }
{
    [(value % 0x100) as u8]
}

/// The lowest 2 bytes of a number, the lowest first.
#[inline]
#[tactic(auto, using(crate::proofs::Access::low_2))]
fn low_2(value: u64) -> [u8; 2]
    ensures { result ≡ little 2 value }
{
    ((value % 0x1_0000) as u16).to_le_bytes()
}

/// The lowest 4 bytes of a number, the lowest first.
#[inline]
#[tactic(auto, using(crate::proofs::Access::low_4))]
fn low_4(value: u64) -> [u8; 4]
    ensures { result ≡ little 4 value }
{
    ((value % 0x1_0000_0000) as u32).to_le_bytes()
}

/// The bytes of a number, the lowest first.
#[inline]
#[tactic(auto, using(crate::proofs::Access::low_8))]
fn low_8(value: u64) -> [u8; 8]
    ensures { result ≡ little 8 value }
{
    value.to_le_bytes()
}
