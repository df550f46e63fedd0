//! Where an instruction leads in the code.

ghost use Rattle.std.specs.Prelude.{◌≡◌, slice_get};
ghost use Rattle.nr_wasmtypes.specs.Code.{after, put};
ghost use Rattle.nr_wasmexec.specs.Functions.{func_at};
ghost use Rattle.nr_trace.specs.Trail.{branch_way, call_way, plain_way, table_way, top, way_of};

use crate::trail::Way;
use nr_wasmexec::{Func, Program, Thread, entry, func_at, label_of};
use nr_wasmmem::Guest;
use nr_wasmtypes::{Instr, Plain};

/// The first of these numbers, and zero where there is none.
fn first_of(values: &[u64]) -> u64
    ensures { result ≡ top values.now }
{
    match values.first() {
        None => 0,
        Some(value) => *value,
    }
}

/// The topmost operand, and zero where there is none.
fn top(thread: &Thread) -> u64
    ensures { result ≡ top thread.now.values }
{
    let some = thread.count().min(1);
    let topmost = thread.args(some);
    first_of(topmost)
}

/// Where a branch leads that is taken unless the operand is zero.
fn branch_way(value: u64, depth: u32) -> Way
    ensures { result ≡ branch_way value depth }
{
    if value == 0 {
        Way::On
    } else {
        Way::Branch { depth }
    }
}

/// Where a call of the function with this number leads.
fn call_way(program: &Program, f: u32) -> Way
    ensures { result ≡ call_way (func_at program.now f) f }
{
    match func_at(program, f) {
        Some(Func::Coded(_, _)) => Way::Call { func: f },
        _ => Way::On,
    }
}

/// Where a call of a function of the table leads.
fn table_way(program: &Program, guest: &Guest, value: u64) -> Way
    ensures { result ≡ table_way program.now (slice_get guest.now.table value) }
{
    match entry(&guest.table, value) {
        None => Way::On,
        Some(None) => Way::On,
        Some(Some(f)) => call_way(program, f),
    }
}

/// Where an instruction leads that holds no others.
fn plain_way(program: &Program, guest: &Guest, value: u64, plain: &Plain) -> Way
    ensures { result ≡ plain_way program.now guest.now value plain.now }
{
    match plain {
        Plain::Br(depth) => Way::Branch { depth: *depth },
        Plain::BrIf(depth) => branch_way(value, *depth),
        Plain::BrTable(labels) => Way::Branch {
            depth: label_of(labels, value),
        },
        Plain::Return => Way::Return,
        Plain::Call(f) => call_way(program, *f),
        Plain::CallIndirect(_) => table_way(program, guest, value),
        Plain::Unreachable => Way::On,
        Plain::Nop => Way::On,
        Plain::Drop => Way::On,
        Plain::Select => Way::On,
        Plain::LocalGet(_) => Way::On,
        Plain::LocalSet(_) => Way::On,
        Plain::LocalTee(_) => Way::On,
        Plain::GlobalGet(_) => Way::On,
        Plain::GlobalSet(_) => Way::On,
        Plain::Load(_, _, _) => Way::On,
        Plain::Store(_, _, _) => Way::On,
        Plain::MemorySize => Way::On,
        Plain::MemoryGrow => Way::On,
        Plain::Const32(_) => Way::On,
        Plain::Const64(_) => Way::On,
        Plain::IsZero(_) => Way::On,
        Plain::Count(_, _) => Way::On,
        Plain::Compare(_, _) => Way::On,
        Plain::Arith(_, _) => Way::On,
        Plain::Convert(_) => Way::On,
    }
}

/// Where this instruction leads, which is the next one of a thread.
fn instr_way(thread: &Thread, program: &Program, guest: &Guest, instr: &Instr) -> Way
    requires { thread.now.code ≡ put instr.now (after thread.now.code) }
    ensures { result ≡ way_of program.now guest.now (top thread.now.values) thread.now.code }
{
    let value = top(thread);
    match instr {
        Instr::Plain(plain) => plain_way(program, guest, value, plain),
        Instr::Block(_, _) => Way::Into { second: false },
        Instr::Loop(_, _) => Way::Into { second: false },
        Instr::If(_, _) => Way::Into { second: value == 0 },
    }
}

/// Where the next instruction of a thread leads, or the end of its sequence.
pub fn way_of(thread: &Thread, program: &Program, guest: &Guest) -> Way
    ensures { result ≡ way_of program.now guest.now (top thread.now.values) thread.now.code }
{
    match thread.instr() {
        None => Way::Out,
        Some(instr) => instr_way(thread, program, guest, instr),
    }
}
