//! What one instruction does.

ghost use Rattle.std.specs.Prelude.{◌≡◌};
ghost use Rattle.nr_wasmtypes.specs.Code.{put, after};
ghost use Rattle.nr_wasmexec.specs.Reduction.{plain_effect};
ghost use Rattle.nr_wasmexec.specs.Executing.{Ends, led_to, led_by, SameShape};

use crate::branching::{arity, branch, branch_by, branch_if, choose, enter, leave};
use crate::calling::{call, call_indirect};
use crate::number::{arith, compare, convert, count, is_zero};
use crate::operand::{discard, push, select, skip};
use crate::program::Program;
use crate::stop::Stop;
use crate::storing::{load, memory_grow, memory_size, store};
use crate::thread::Thread;
use crate::variable::{global_get, global_set, local_get, local_set, local_tee};
use nr_wasmmem::{Guest, Host};
use nr_wasmtypes::{Instr, Plain};

/// Runs the next instruction of a thread.
///
/// # Errors
///
/// `Trap`, `GasExceeded` and `HostFault` as the instruction and the host mean it. `Lost` where no rule fits.
/// `Memory`.
#[inline]
pub fn execute<'a, H: Host>(
    thread: &mut Thread<'a>,
    program: &'a Program,
    host: &mut H,
    guest: &mut Guest,
    instr: &'a Instr,
) -> Result<(), Stop>
    requires { thread.old.code ≡ put instr.now (after thread.old.code) }
    ensures goes { Ends result (H.state host.new) guest.new thread.new
        (led_by H.meaning program.now (H.state host.old) guest.old thread.old) }
    ensures shape { SameShape guest.old guest.new }
    ensures keeps { H.keeps host.old host.new }
{
    match instr {
        Instr::Plain(plain) => obey_plain(thread, program, host, guest, plain),
        Instr::Block(kind, body) => enter(thread, arity(*kind), false, body),
        Instr::Loop(_, body) => enter(thread, 0, true, body),
        Instr::If(kind, arms) => choose(thread, arity(*kind), &arms.0, &arms.1),
    }
}

#[inline]
#[tactic(auto, using(crate::proofs::Effects::moves_end, crate::proofs::Effects::changes_end))]
fn obey_plain<'a, H: Host>(
    thread: &mut Thread<'a>,
    program: &'a Program,
    host: &mut H,
    guest: &mut Guest,
    plain: &Plain,
) -> Result<(), Stop>
    ensures goes { Ends result (H.state host.new) guest.new thread.new
        (led_to H.meaning (H.state host.old) guest.old thread.old
        (plain_effect program.now guest.old thread.old.locals thread.old.values plain.now)) }
    ensures shape { SameShape guest.old guest.new }
    ensures keeps { H.keeps host.old host.new }
{
    match plain {
        Plain::Unreachable => Err(Stop::Trap(1)),
        Plain::Nop => skip(thread),
        Plain::Br(depth) => branch(thread, *depth),
        Plain::BrIf(depth) => branch_if(thread, *depth),
        Plain::BrTable(labels) => branch_by(thread, labels),
        Plain::Return => leave(thread),
        Plain::Call(f) => call(thread, program, host, guest, *f),
        Plain::CallIndirect(t) => call_indirect(thread, program, host, guest, *t),
        Plain::Drop => discard(thread),
        Plain::Select => select(thread),
        Plain::LocalGet(at) => local_get(thread, *at),
        Plain::LocalSet(at) => local_set(thread, *at),
        Plain::LocalTee(at) => local_tee(thread, *at),
        Plain::GlobalGet(at) => global_get(thread, guest, *at),
        Plain::GlobalSet(at) => global_set(thread, guest, *at),
        Plain::Load(what, _, offset) => load(thread, &guest.memory, *what, *offset),
        Plain::Store(what, _, offset) => store(thread, guest, *what, *offset),
        Plain::MemorySize => memory_size(thread, &guest.memory),
        Plain::MemoryGrow => memory_grow(thread, guest),
        Plain::Const32(n) => push(thread, u64::from(*n)),
        Plain::Const64(n) => push(thread, *n),
        Plain::IsZero(kind) => is_zero(thread, *kind),
        Plain::Count(kind, how) => count(thread, *kind, *how),
        Plain::Compare(kind, how) => compare(thread, *kind, *how),
        Plain::Arith(kind, how) => arith(thread, *kind, *how),
        Plain::Convert(how) => convert(thread, *how),
    }
}
