//! Quiet instructions: those that change neither the host nor the guest.

ghost use Rattle.std.specs.Prelude.{◌≡◌};
ghost use Rattle.nr_wasmtypes.specs.Code.{put, after};
ghost use Rattle.nr_wasmexec.specs.Reduction.{plain_effect};
ghost use Rattle.nr_wasmexec.specs.Executing.{by};
ghost use Rattle.nr_wasmexec.specs.Rows.{next_move, Quiets, Begun, RanNoCall, PassedNoCall};

use crate::branching::{arity, branch, branch_by, branch_if, choose, enter, leave};
use crate::number::{arith, compare, convert, count, is_zero};
use crate::operand::{discard, push, select, skip};
use crate::program::Program;
use crate::stop::Stop;
use crate::storing::{load, memory_size};
use crate::thread::Thread;
use crate::variable::{global_get, local_get, local_set, local_tee};
use nr_wasmmem::Guest;
use nr_wasmtypes::{Instr, Plain};

/// Runs a plain instruction that changes neither the host nor the guest. `None`, with nothing done, for any other.
#[inline(always)]
fn quiet_plain(
    thread: &mut Thread,
    program: &Program,
    guest: &Guest,
    plain: &Plain,
) -> Option<Result<(), Stop>>
    ensures quiet { Quiets result thread.old thread.new (by thread.old
        (plain_effect program.now guest.now thread.old.locals thread.old.values plain.now)) }
    ensures calm { RanNoCall result plain.now }
{
    match plain {
        Plain::Unreachable => None,
        Plain::Nop => Some(skip(thread)),
        Plain::Br(depth) => Some(branch(thread, *depth)),
        Plain::BrIf(depth) => Some(branch_if(thread, *depth)),
        Plain::BrTable(labels) => Some(branch_by(thread, labels)),
        Plain::Return => Some(leave(thread)),
        Plain::Call(_) => None,
        Plain::CallIndirect(_) => None,
        Plain::Drop => Some(discard(thread)),
        Plain::Select => Some(select(thread)),
        Plain::LocalGet(at) => Some(local_get(thread, *at)),
        Plain::LocalSet(at) => Some(local_set(thread, *at)),
        Plain::LocalTee(at) => Some(local_tee(thread, *at)),
        Plain::GlobalGet(at) => Some(global_get(thread, guest, *at)),
        Plain::GlobalSet(_) => None,
        Plain::Load(what, _, offset) => Some(load(thread, &guest.memory, *what, *offset)),
        Plain::Store(_, _, _) => None,
        Plain::MemorySize => Some(memory_size(thread, &guest.memory)),
        Plain::MemoryGrow => None,
        Plain::Const32(n) => Some(push(thread, u64::from(*n))),
        Plain::Const64(n) => Some(push(thread, *n)),
        Plain::IsZero(kind) => Some(is_zero(thread, *kind)),
        Plain::Count(kind, how) => Some(count(thread, *kind, *how)),
        Plain::Compare(kind, how) => Some(compare(thread, *kind, *how)),
        Plain::Arith(kind, how) => Some(arith(thread, *kind, *how)),
        Plain::Convert(how) => Some(convert(thread, *how)),
    }
}

/// The same of any instruction that is next.
#[inline(always)]
fn quiet<'a>(
    thread: &mut Thread<'a>,
    program: &Program,
    guest: &Guest,
    instr: &'a Instr,
) -> Option<Result<(), Stop>>
    requires { thread.old.code ≡ put instr.now (after thread.old.code) }
    ensures quiet { Quiets result thread.old thread.new (next_move program.now guest.now thread.old) }
    ensures calm { PassedNoCall result thread.old.code }
{
    match instr {
        Instr::Plain(plain) => quiet_plain(thread, program, guest, plain),
        Instr::Block(kind, body) => Some(enter(thread, arity(*kind), false, body)),
        Instr::Loop(_, body) => Some(enter(thread, 0, true, body)),
        Instr::If(kind, arms) => Some(choose(thread, arity(*kind), &arms.0, &arms.1)),
    }
}

/// Runs the next instruction where it is quiet. `None`, with nothing done, where it isn't or none is there.
///
/// # Errors
///
/// `Trap` as the instruction means it, `Lost` where no rule fits. `Memory`.
#[inline(always)]
pub fn next_quiet<'a>(
    thread: &mut Thread<'a>,
    program: &Program,
    guest: &Guest,
) -> Option<Result<(), Stop>>
    ensures quiet { Quiets result thread.old thread.new (next_move program.now guest.now thread.old) }
    ensures begun { Begun result thread.old.code }
    ensures calm { PassedNoCall result thread.old.code }
{
    match thread.instr() {
        None => None,
        Some(instr) => quiet(thread, program, guest, instr),
    }
}
