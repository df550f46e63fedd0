//! All operations on two numbers and on one.

ghost use Rattle.std.specs.Prelude.{◌≡◌, IfOk};
ghost use Rattle.nr_wasmnum.specs.Integers.{binary_of, binary_type, unary_of, unary_type, IsOf};

use crate::arithmetic::arith;
use crate::comparison::{compare, is_zero};
use crate::conversion::convert;
use crate::counting::count_bits;
use crate::fault::NumFault;
use nr_wasmtypes::{Arith, Compare, Convert, Count, ValType};

/// An operation on two numbers of a type: a variant for each group of them.
#[derive(Clone, Copy, Debug, PartialEq, Eq)]
pub enum BinOp {
    Arith(ValType, Arith),
    Compare(ValType, Compare),
}

/// An operation on one number: a variant for each group of them.
#[derive(Clone, Copy, Debug, PartialEq, Eq)]
pub enum UnOp {
    IsZero(ValType),
    Count(ValType, Count),
    Convert(Convert),
}

/// What an operation gives of two numbers (WebAssembly Core 1.0, "Integer Operations").
///
/// # Errors
///
/// `ByZero` where it divides by zero; `Overflow` where it divides the least signed number by -1.
pub fn binary(op: BinOp, a: u64, b: u64) -> Result<u64, NumFault>
    ensures value { result ≡ binary_of op a b }
    ensures fits { IfOk result (IsOf (binary_type op)) }
{
    match op {
        BinOp::Arith(kind, op) => arith(kind, op, a, b),
        BinOp::Compare(kind, op) => Ok(compare(kind, op, a, b)),
    }
}

/// What an operation gives of one number (WebAssembly Core 1.0, "Integer Operations").
pub fn unary(op: UnOp, a: u64) -> u64
    ensures value { result ≡ unary_of op a }
    ensures fits { IsOf (unary_type op) result }
{
    match op {
        UnOp::IsZero(kind) => is_zero(kind, a),
        UnOp::Count(kind, op) => count_bits(kind, op, a),
        UnOp::Convert(op) => convert(op, a),
    }
}
