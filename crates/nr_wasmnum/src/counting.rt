//! Counts of bits.

ghost use Rattle.std.specs.Prelude.{◌≡◌};
ghost use Rattle.nr_wasmtypes.specs.declared.instr.ValType.TheVariants.{I32, I64};
ghost use Rattle.nr_wasmnum.specs.Integers.{bit_count_of, count_on, IsOf};

use crate::operand::{low32, low64};
use nr_wasmtypes::{Count, ValType};

/// How many zero bits stand above the highest one of a number, below its lowest one, or how many bits are
/// one. The first two are the type's width for zero.
#[inline]
pub fn count_bits(kind: ValType, op: Count, a: u64) -> u64
    ensures value { result ≡ bit_count_of kind op a }
    ensures fits { IsOf kind result }
{
    match kind {
        ValType::I32 => u64::from(count32(op, low32(a))),
        ValType::I64 => u64::from(count64(op, low64(a))),
    }
}

#[inline]
fn count32(op: Count, a: u32) -> u32
    ensures { result ≡ count_on I32 op a }
{
    match op {
        Count::Clz => a.leading_zeros(),
        Count::Ctz => a.trailing_zeros(),
        Count::Popcnt => a.count_ones(),
    }
}

#[inline]
fn count64(op: Count, a: u64) -> u32
    ensures { result ≡ count_on I64 op a }
{
    match op {
        Count::Clz => a.leading_zeros(),
        Count::Ctz => a.trailing_zeros(),
        Count::Popcnt => a.count_ones(),
    }
}
