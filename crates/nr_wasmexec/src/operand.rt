//! Instructions that move operands.

ghost use Rattle.std.specs.Prelude.{◌≡◌, ◌∷◌, ◌==◌, if◌then◌else◌};
ghost use Rattle.nr_wasmexec.specs.Reduction.{Goes, on_top, on_three};
ghost use Rattle.nr_wasmexec.specs.Executing.{by, Moves, Takes};

use crate::stop::Stop;
use crate::thread::Thread;

/// Goes on.
///
/// # Errors
///
/// `Memory` at most.
#[inline(always)]
pub fn skip(thread: &mut Thread) -> Result<(), Stop>
    ensures { Moves result thread.new (by thread.old (Goes thread.old.locals thread.old.values)) }
{
    thread.advance();
    Ok(())
}

/// Goes on with one operand more.
///
/// # Errors
///
/// `Memory` alone.
#[inline(always)]
pub fn push(thread: &mut Thread, value: u64) -> Result<(), Stop>
    ensures { Moves result thread.new (by thread.old (Goes thread.old.locals (value ∷ thread.old.values))) }
{
    thread.advance();
    thread.push(value)?;
    Ok(())
}

/// Takes the topmost operand, and stays.
///
/// # Errors
///
/// `Lost` exactly where there is none.
#[inline(always)]
pub fn popped(thread: &mut Thread) -> Result<u64, Stop>
    ensures { Takes result thread.old thread.new }
{
    match thread.pop() {
        None => Err(Stop::Lost),
        Some(value) => Ok(value),
    }
}

/// Drops the topmost operand.
///
/// # Errors
///
/// `Lost` where there is none.
#[inline(always)]
pub fn discard(thread: &mut Thread) -> Result<(), Stop>
    ensures { Moves result thread.new (by thread.old
        (on_top thread.old.values (λ v rest. Goes thread.old.locals rest))) }
{
    popped(thread)?;
    thread.advance();
    Ok(())
}

/// Keeps the first of two operands, or the second where the third is zero.
///
/// # Errors
///
/// `Lost` where there are fewer than three. `Memory`.
#[inline(always)]
pub fn select(thread: &mut Thread) -> Result<(), Stop>
    ensures { Moves result thread.new (by thread.old
        (on_three thread.old.values (λ x y v rest. Goes thread.old.locals ((if v == 0 then y else x) ∷ rest)))) }
{
    let choice = popped(thread)?;
    let second = popped(thread)?;
    let first = popped(thread)?;
    push(thread, chosen(choice, first, second))
}

#[inline(always)]
fn chosen(choice: u64, first: u64, second: u64) -> u64
    ensures { result ≡ (if choice == 0 then second else first) }
{
    if choice == 0 { second } else { first }
}
