//! Instructions over locals and globals.

ghost use Rattle.std.specs.Prelude.{◌≡◌, ◌∷◌, length, nat_lt, slice_get, slice_set, if◌then◌else◌};
ghost use Rattle.nr_wasmexec.specs.Reduction.{Goes, Writes, Stuck, on_top, with_value};
ghost use Rattle.nr_wasmexec.specs.Executing.{by, Moves, Changes, changed, SetsAt, SameShape};

use crate::branching::reached;
use crate::operand::{popped, push};
use crate::stop::Stop;
use crate::thread::Thread;
use nr_bytes::List;
use nr_wasmmem::Guest;

/// Puts a local on top, by its number from 0.
///
/// # Errors
///
/// `Lost` where there is none. `Memory`.
#[inline(always)]
pub fn local_get(thread: &mut Thread, at: u32) -> Result<(), Stop>
    ensures { Moves result thread.new (by thread.old
        (with_value (slice_get thread.old.locals at) (λ v. Goes thread.old.locals (v ∷ thread.old.values)))) }
{
    match thread.local(at) {
        None => Err(Stop::Lost),
        Some(value) => push(thread, value),
    }
}

/// Takes the topmost operand as a local, by its number from 0.
///
/// # Errors
///
/// `Lost` where either is not there.
#[inline(always)]
pub fn local_set(thread: &mut Thread, at: u32) -> Result<(), Stop>
    ensures { Moves result thread.new (by thread.old
        (on_top thread.old.values (λ v rest. if nat_lt at (length thread.old.locals) then Goes
        (slice_set thread.old.locals at v) rest else Stuck))) }
{
    let value = popped(thread)?;
    thread.advance();
    reached(thread.set_local(at, value))
}

/// Copies the topmost operand to a local, by its number from 0.
///
/// # Errors
///
/// `Lost` where either is not there. `Memory`.
#[inline(always)]
pub fn local_tee(thread: &mut Thread, at: u32) -> Result<(), Stop>
    ensures { Moves result thread.new (by thread.old
        (on_top thread.old.values (λ v rest. if nat_lt at (length thread.old.locals) then Goes
        (slice_set thread.old.locals at v) thread.old.values else Stuck))) }
{
    let value = popped(thread)?;
    reached(thread.set_local(at, value))?;
    push(thread, value)
}

/// Puts a global on top, by its number from 0.
///
/// # Errors
///
/// `Lost` where there is none. `Memory`.
#[inline]
pub fn global_get(thread: &mut Thread, guest: &Guest, at: u32) -> Result<(), Stop>
    ensures { Moves result thread.new (by thread.old
        (with_value (slice_get guest.now.globals at) (λ v. Goes thread.old.locals (v ∷ thread.old.values)))) }
{
    match global(&guest.globals, at) {
        None => Err(Stop::Lost),
        Some(value) => push(thread, value),
    }
}

#[inline]
fn global(globals: &List<u64>, at: u32) -> Option<u64>
    ensures { result ≡ slice_get globals.now at }
{
    globals.inner().get(at as usize).copied()
}

/// Takes the topmost operand as a global, by its number from 0.
///
/// # Errors
///
/// `Lost` where either is not there.
#[inline]
pub fn global_set(thread: &mut Thread, guest: &mut Guest, at: u32) -> Result<(), Stop>
    ensures goes { Changes result guest.old guest.new thread.new
        (changed guest.old thread.old (on_top thread.old.values
        (λ v rest. if nat_lt at (length guest.old.globals) then Writes
        (record guest.old { globals = slice_set guest.old.globals at v }) rest else Stuck))) }
    ensures shape { SameShape guest.old guest.new }
{
    let value = popped(thread)?;
    thread.advance();
    reached(assign(&mut guest.globals, at, value))
}

#[inline]
fn assign(globals: &mut List<u64>, at: u32, value: u64) -> bool
    ensures { SetsAt result at value globals.old globals.new }
{
    let values = globals.vec_mut();
    let at = at as usize;
    if at < values.len() {
        values[at] = value;
        true
    } else {
        false
    }
}
