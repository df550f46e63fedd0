//! Comparisons.

ghost use Rattle.std.specs.Prelude.{◌≡◌};
ghost use Rattle.nr_wasmtypes.specs.declared.instr.ValType.TheVariants.{I32, I64};
ghost use Rattle.nr_wasmnum.specs.Integers.{compare_of, zero_test_of, holds, IsOf};

use crate::operand::{low32, low64};
use nr_wasmtypes::{Compare, ValType};

/// 1 where the comparison holds of two numbers, else 0.
#[inline]
pub fn compare(kind: ValType, op: Compare, a: u64, b: u64) -> u64
    ensures value { result ≡ compare_of kind op a b }
    ensures fits { IsOf I32 result }
{
    match kind {
        ValType::I32 => u64::from(holds32(op, low32(a), low32(b))),
        ValType::I64 => u64::from(holds64(op, low64(a), low64(b))),
    }
}

/// 1 where the number is zero, else 0.
#[inline]
pub fn is_zero(kind: ValType, a: u64) -> u64
    ensures value { result ≡ zero_test_of kind a }
    ensures fits { IsOf I32 result }
{
    match kind {
        ValType::I32 => u64::from(low32(a) == 0),
        ValType::I64 => u64::from(low64(a) == 0),
    }
}

#[inline]
fn holds32(op: Compare, a: u32, b: u32) -> bool
    ensures { result ≡ holds I32 op a b }
{
    match op {
        Compare::Equal => a == b,
        Compare::NotEqual => a != b,
        Compare::LtS => a.cast_signed() < b.cast_signed(),
        Compare::LtU => a < b,
        Compare::GtS => a.cast_signed() > b.cast_signed(),
        Compare::GtU => a > b,
        Compare::LeS => a.cast_signed() <= b.cast_signed(),
        Compare::LeU => a <= b,
        Compare::GeS => a.cast_signed() >= b.cast_signed(),
        Compare::GeU => a >= b,
    }
}

#[inline]
fn holds64(op: Compare, a: u64, b: u64) -> bool
    ensures { result ≡ holds I64 op a b }
{
    match op {
        Compare::Equal => a == b,
        Compare::NotEqual => a != b,
        Compare::LtS => a.cast_signed() < b.cast_signed(),
        Compare::LtU => a < b,
        Compare::GtS => a.cast_signed() > b.cast_signed(),
        Compare::GtU => a > b,
        Compare::LeS => a.cast_signed() <= b.cast_signed(),
        Compare::LeU => a <= b,
        Compare::GeS => a.cast_signed() >= b.cast_signed(),
        Compare::GeU => a >= b,
    }
}
