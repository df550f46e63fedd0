//! Instructions that compute.

ghost use Rattle.std.specs.Prelude.{◌∷◌};
ghost use Rattle.nr_wasmnum.specs.Integers.{arith_of, compare_of, zero_test_of, bit_count_of, convert_of};
ghost use Rattle.nr_wasmexec.specs.Reduction.{Goes, on_top, on_two, computed};
ghost use Rattle.nr_wasmexec.specs.Executing.{by, Moves};

use crate::operand::{popped, push};
use crate::stop::Stop;
use crate::thread::Thread;
use nr_wasmnum::NumFault;
use nr_wasmtypes::{Arith, Compare, Convert, Count, ValType};

/// Puts 1 in place of the topmost operand where it is zero, else 0.
///
/// # Errors
///
/// `Lost` where there is none. `Memory`.
#[inline(always)]
pub fn is_zero(thread: &mut Thread, kind: ValType) -> Result<(), Stop>
    ensures { Moves result thread.new (by thread.old
        (on_top thread.old.values (λ v rest. Goes thread.old.locals (zero_test_of kind v ∷ rest)))) }
{
    let value = popped(thread)?;
    push(thread, nr_wasmnum::is_zero(kind, value))
}

/// Puts a count of bits in place of the topmost operand.
///
/// # Errors
///
/// `Lost` where there is none. `Memory`.
#[inline]
pub fn count(thread: &mut Thread, kind: ValType, how: Count) -> Result<(), Stop>
    ensures { Moves result thread.new (by thread.old
        (on_top thread.old.values (λ v rest. Goes thread.old.locals (bit_count_of kind how v ∷ rest)))) }
{
    let value = popped(thread)?;
    push(thread, nr_wasmnum::count_bits(kind, how, value))
}

/// Puts the same number as another type in place of the topmost operand.
///
/// # Errors
///
/// `Lost` where there is none. `Memory`.
#[inline(always)]
pub fn convert(thread: &mut Thread, how: Convert) -> Result<(), Stop>
    ensures { Moves result thread.new (by thread.old
        (on_top thread.old.values (λ v rest. Goes thread.old.locals (convert_of how v ∷ rest)))) }
{
    let value = popped(thread)?;
    push(thread, nr_wasmnum::convert(how, value))
}

/// Puts 1 in place of two operands, of which the second is on top, where the comparison holds, else 0.
///
/// # Errors
///
/// `Lost` where there are fewer. `Memory`.
#[inline(always)]
pub fn compare(thread: &mut Thread, kind: ValType, how: Compare) -> Result<(), Stop>
    ensures { Moves result thread.new (by thread.old
        (on_two thread.old.values (λ x y rest. Goes thread.old.locals (compare_of kind how x y ∷ rest)))) }
{
    let second = popped(thread)?;
    let first = popped(thread)?;
    push(thread, nr_wasmnum::compare(kind, how, first, second))
}

/// Puts what an operation gives in place of two operands, of which the second is on top.
///
/// # Errors
///
/// Trap 3 at a division by zero, trap 4 where the type does not have the quotient. `Lost` where there are fewer
/// operands. `Memory`.
#[inline(always)]
pub fn arith(thread: &mut Thread, kind: ValType, how: Arith) -> Result<(), Stop>
    ensures { Moves result thread.new (by thread.old
        (on_two thread.old.values (λ x y rest. computed (arith_of kind how x y)
        (λ v. Goes thread.old.locals (v ∷ rest))))) }
{
    let second = popped(thread)?;
    let first = popped(thread)?;
    match nr_wasmnum::arith(kind, how, first, second) {
        Ok(value) => push(thread, value),
        Err(NumFault::ByZero) => Err(Stop::Trap(3)),
        Err(NumFault::Overflow) => Err(Stop::Trap(4)),
    }
}
