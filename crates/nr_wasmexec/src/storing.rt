//! Instructions over memory.

ghost use Rattle.std.specs.Prelude.{◌≡◌, ◌∷◌, ◌%◌, ◌^◌};
ghost use Rattle.nr_wasmnum.specs.Integers.{load_of};
ghost use Rattle.nr_wasmmem.specs.Bytes.{number_in, number_over, width_of_load, width_of_store, pages_of, grown};
ghost use Rattle.nr_wasmexec.specs.Reduction.{Goes, on_top, on_two, place_at, read, written, grows};
ghost use Rattle.nr_wasmexec.specs.Executing.{by, Moves, Changes, changed, SameShape};

use crate::operand::{popped, push};
use crate::stop::Stop;
use crate::thread::Thread;
use nr_wasmmem::{Guest, Memory, load_width, store_width};
use nr_wasmnum::extend_load;
use nr_wasmtypes::{Load, Store};

/// Where an access stands: an address, which counts modulo 2^32, and the offset of the instruction.
#[inline(always)]
fn place_at(base: u64, offset: u32) -> u64
    ensures { result ≡ place_at base offset }
{
    u64::from(low32(base)) + u64::from(offset)
}

#[inline(always)]
fn low32(value: u64) -> u32
    ensures { result ≡ value % 2 ^ 32 }
{
    (value % 0x1_0000_0000) as u32
}

/// Puts the number at an address, which is the topmost operand, in its place.
///
/// # Errors
///
/// Trap 2 where the access is not inside the memory. `Lost` where there is no operand. `Memory`.
#[inline]
pub fn load(thread: &mut Thread, memory: &Memory, what: Load, offset: u32) -> Result<(), Stop>
    ensures { Moves result thread.new (by thread.old
        (on_top thread.old.values (λ at rest. read
        (number_in memory.now.bytes (place_at at offset) (width_of_load what))
        (λ v. Goes thread.old.locals (load_of what v ∷ rest))))) }
{
    let base = popped(thread)?;
    match memory.load(place_at(base, offset), load_width(what)) {
        Ok(number) => push(thread, extend_load(what, number)),
        Err(_) => Err(Stop::Trap(2)),
    }
}

/// Takes a number and then its address, and writes its lowest bytes.
///
/// # Errors
///
/// Trap 2 where the access is not inside the memory, which is then as it was. `Lost` where there are fewer operands.
#[inline]
pub fn store(thread: &mut Thread, guest: &mut Guest, what: Store, offset: u32) -> Result<(), Stop>
    ensures goes { Changes result guest.old guest.new thread.new
        (changed guest.old thread.old (on_two thread.old.values
        (λ at v rest. written guest.old (number_over guest.old.memory.bytes (place_at at offset)
        (width_of_store what) v) rest))) }
    ensures shape { SameShape guest.old guest.new }
{
    let value = popped(thread)?;
    let base = popped(thread)?;
    match guest
        .memory
        .store(place_at(base, offset), store_width(what), value)
    {
        Ok(()) => {
            thread.advance();
            Ok(())
        }
        Err(_) => Err(Stop::Trap(2)),
    }
}

/// Puts how many pages of 64 KiB the memory has on top.
///
/// # Errors
///
/// `Memory` alone.
#[inline]
pub fn memory_size(thread: &mut Thread, memory: &Memory) -> Result<(), Stop>
    ensures { Moves result thread.new (by thread.old
        (Goes thread.old.locals (pages_of memory.now.bytes ∷ thread.old.values))) }
{
    push(thread, u64::from(memory.pages()))
}

/// Grows the memory by as many pages of 64 KiB as the topmost operand says, and puts how many there were in its
/// place, or 2^32 - 1 where it may not grow so far.
///
/// # Errors
///
/// `Lost` where there is no operand. `Memory`.
pub fn memory_grow(thread: &mut Thread, guest: &mut Guest) -> Result<(), Stop>
    ensures goes { Changes result guest.old guest.new thread.new
        (changed guest.old thread.old (on_top thread.old.values
        (λ v rest. grows guest.old (grown guest.old.memory (v % 2 ^ 32)) rest))) }
    ensures shape { SameShape guest.old guest.new }
{
    let pages = popped(thread)?;
    match guest.memory.grow(low32(pages))? {
        Some(before) => push(thread, u64::from(before)),
        None => push(thread, 0xffff_ffff),
    }
}
