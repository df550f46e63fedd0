//! The byte arguments of bindings.

ghost use Rattle.std.specs.Prelude.{◌≡◌, MatchResult, Ok, Err};
ghost use Rattle.nr_guest.specs.Guest.{argument, argument_size};

use crate::fault::GuestFault;
use crate::registers::Registers;
use nr_wasmmem::Memory;

/// How many bytes an argument has: those of the register `ptr` where `len` is `u64::MAX`, else `len`.
///
/// # Errors
///
/// `BadRegister` exactly where `len` is `u64::MAX` and there is no register `ptr`.
pub fn argument_size(registers: &Registers, len: u64, ptr: u64) -> Result<u64, GuestFault>
    ensures { result ≡ argument_size registers.now len ptr }
{
    if len != u64::MAX {
        return Ok(len);
    }
    match registers.get(ptr) {
        Some(bytes) => Ok(bytes.len() as u64),
        None => Err(GuestFault::BadRegister),
    }
}

/// The bytes of an argument: those of the register `ptr` where `len` is `u64::MAX`, else `len` bytes of the
/// memory from `ptr` on.
///
/// # Errors
///
/// `BadRegister` exactly where `len` is `u64::MAX` and there is no register `ptr`; `OutOfBounds` exactly
/// where it is another number and the range isn't inside the memory.
pub fn argument<'a>(
    registers: &'a Registers,
    memory: &'a Memory,
    len: u64,
    ptr: u64,
) -> Result<&'a [u8], GuestFault>
    ensures { MatchResult result (λ part. argument registers.now memory.now.bytes len ptr ≡ Ok part.now)
        (λ e. argument registers.now memory.now.bytes len ptr ≡ Err e) }
{
    if len == u64::MAX {
        return match registers.get(ptr) {
            Some(bytes) => Ok(bytes),
            None => Err(GuestFault::BadRegister),
        };
    }
    match memory.range(ptr, len) {
        Ok(bytes) => Ok(bytes),
        Err(_) => Err(GuestFault::OutOfBounds),
    }
}
