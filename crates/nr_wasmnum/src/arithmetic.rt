//! Arithmetic on two numbers.

ghost use Rattle.std.specs.Prelude.{◌≡◌, IfOk};
ghost use Rattle.nr_wasmtypes.specs.declared.instr.ValType.TheVariants.{I32, I64};
ghost use Rattle.nr_wasmnum.specs.Integers.{arith_of, arith_on, signed_quotient, signed_remainder, IsOf};

use crate::fault::NumFault;
use crate::operand::{low32, low64};
use nr_wasmtypes::{Arith, ValType};

/// What an operation gives of two numbers of a type (WebAssembly Core 1.0, "Integer Operations"). Shifts and
/// rotations count modulo the type's width; the signed operations read two's complement.
///
/// # Errors
///
/// `ByZero` where a division or a remainder is by zero; `Overflow` where `DivS` divides the least number by
/// -1.
#[inline]
pub fn arith(kind: ValType, op: Arith, a: u64, b: u64) -> Result<u64, NumFault>
    ensures value { result ≡ arith_of kind op a b }
    ensures fits { IfOk result (IsOf kind) }
{
    match kind {
        ValType::I32 => widened(arith32(op, low32(a), low32(b))),
        ValType::I64 => arith64(op, low64(a), low64(b)),
    }
}

#[inline]
fn widened(value: Result<u32, NumFault>) -> Result<u64, NumFault>
    ensures { result ≡ value }
{
    match value {
        Ok(value) => Ok(u64::from(value)),
        Err(fault) => Err(fault),
    }
}

#[inline]
fn arith32(op: Arith, a: u32, b: u32) -> Result<u32, NumFault>
    ensures { result ≡ arith_on I32 op a b }
{
    match op {
        Arith::Add => Ok(a.wrapping_add(b)),
        Arith::Sub => Ok(a.wrapping_sub(b)),
        Arith::Mul => Ok(a.wrapping_mul(b)),
        Arith::DivS => quotient32(a, b),
        Arith::DivU => a.checked_div(b).ok_or(NumFault::ByZero),
        Arith::RemS => remainder32(a, b),
        Arith::RemU => a.checked_rem(b).ok_or(NumFault::ByZero),
        Arith::And => Ok(a & b),
        Arith::Or => Ok(a | b),
        Arith::Xor => Ok(a ^ b),
        Arith::Shl => Ok(a << (b % 32)),
        Arith::ShrS => Ok((a.cast_signed() >> (b % 32)).cast_unsigned()),
        Arith::ShrU => Ok(a >> (b % 32)),
        Arith::Rotl => Ok(a.rotate_left(b % 32)),
        Arith::Rotr => Ok(a.rotate_right(b % 32)),
    }
}

#[inline]
fn arith64(op: Arith, a: u64, b: u64) -> Result<u64, NumFault>
    ensures { result ≡ arith_on I64 op a b }
{
    match op {
        Arith::Add => Ok(a.wrapping_add(b)),
        Arith::Sub => Ok(a.wrapping_sub(b)),
        Arith::Mul => Ok(a.wrapping_mul(b)),
        Arith::DivS => quotient64(a, b),
        Arith::DivU => a.checked_div(b).ok_or(NumFault::ByZero),
        Arith::RemS => remainder64(a, b),
        Arith::RemU => a.checked_rem(b).ok_or(NumFault::ByZero),
        Arith::And => Ok(a & b),
        Arith::Or => Ok(a | b),
        Arith::Xor => Ok(a ^ b),
        Arith::Shl => Ok(a << (b % 64)),
        Arith::ShrS => Ok((a.cast_signed() >> (b % 64)).cast_unsigned()),
        Arith::ShrU => Ok(a >> (b % 64)),
        Arith::Rotl => Ok(a.rotate_left((b % 64) as u32)),
        Arith::Rotr => Ok(a.rotate_right((b % 64) as u32)),
    }
}

#[inline]
fn quotient32(a: u32, b: u32) -> Result<u32, NumFault>
    ensures { result ≡ signed_quotient I32 a b }
{
    if b == 0 {
        Err(NumFault::ByZero)
    } else if a == 0x8000_0000 && b == u32::MAX {
        Err(NumFault::Overflow)
    } else {
        Ok((a.cast_signed() / b.cast_signed()).cast_unsigned())
    }
}

#[inline]
fn remainder32(a: u32, b: u32) -> Result<u32, NumFault>
    ensures { result ≡ signed_remainder I32 a b }
{
    if b == 0 {
        Err(NumFault::ByZero)
    } else {
        let left = a.cast_signed().wrapping_rem(b.cast_signed());
        Ok(left.cast_unsigned())
    }
}

#[inline]
fn quotient64(a: u64, b: u64) -> Result<u64, NumFault>
    ensures { result ≡ signed_quotient I64 a b }
{
    if b == 0 {
        Err(NumFault::ByZero)
    } else if a == 0x8000_0000_0000_0000 && b == u64::MAX {
        Err(NumFault::Overflow)
    } else {
        Ok((a.cast_signed() / b.cast_signed()).cast_unsigned())
    }
}

#[inline]
fn remainder64(a: u64, b: u64) -> Result<u64, NumFault>
    ensures { result ≡ signed_remainder I64 a b }
{
    if b == 0 {
        Err(NumFault::ByZero)
    } else {
        let left = a.cast_signed().wrapping_rem(b.cast_signed());
        Ok(left.cast_unsigned())
    }
}
