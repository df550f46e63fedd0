//! Runs of functions.

ghost use Rattle.std.specs.Prelude.{◌≡◌, ◌≤◌, ◌<◌, ◌+◌, ◌*◌, ◌^◌, ◌∷◌, ◌||◌, drop, replicate, IsTrue, IfOk, OnOk};
ghost use Rattle.std.specs.Prelude.{Some, None, MatchOption, IsSomeAnd, slice_get};
ghost use Rattle.nr_wasmexec.specs.Reduction.{stepped, run_of, run_in, run_by};
ghost use Rattle.nr_wasmtypes.specs.Code.{after, put, code_of};
ghost use Rattle.nr_wasmexec.specs.Executing.{SameShape, func_of};
ghost use Rattle.nr_wasmexec.specs.Machine.{rules_of, runtime, config_of, Steps, Turns, work_left, is_too_large_at};
ghost use Rattle.nr_wasmexec.specs.Machine.{run_at, Drives, Ends, NeverStuck};
ghost use Rattle.nr_wasmexec.specs.Place.{frames_in};
ghost use Rattle.nr_wasmexec.specs.Rows.{holds, Rows, Pays, Rides, Leaps};
ghost use Rattle.nr_wasmexec.specs.Making.{is_method};
ghost use Rattle.nr_wasmexec.specs.Standing.{IsGuest};
ghost use Rattle.nr_wasmexec.specs.Functions.{func_at, links};

use crate::execute::execute;
use crate::program::{Func, Limits, Program, func_at};
use crate::quiet::next_quiet;
use crate::stop::{RunStop, Stop};
use crate::thread::Thread;
use nr_wasmmem::{Guest, Host};
use nr_wasmtypes::Instr;
use nr_wasmvalid::running_laws;
use std::alloc::Global;

/// The most instructions in a row.
const LONGEST: u32 = 256;

/// An instruction that costs so much or more isn't run in a row.
const DEAR: u128 = 1 << 64;

/// Pays for the next instruction, and runs it.
#[inline]
fn obey<'a, H: Host>(
    thread: &mut Thread<'a>,
    program: &'a Program,
    limits: Limits,
    host: &mut H,
    guest: &mut Guest,
    instr: &'a Instr,
) -> Result<(), Stop>
    requires code { thread.old.code ≡ put instr.now (after thread.old.code) }
    requires cost { 1 ≤ limits.cost }
    ensures step { Steps result (H.state host.new) guest.new thread.new
        (stepped (rules_of H.meaning program.now limits) (config_of (H.state host.old) guest.old thread.old)) }
    ensures falls { OnOk result (work_left H.meaning (H.state host.new) thread.new
        < work_left H.meaning (H.state host.old) thread.old) }
    ensures shape { SameShape guest.old guest.new }
    ensures keeps { H.keeps host.old host.new }
{
    match host.burn(limits.cost) {
        Err(_) => Err(Stop::GasExceeded),
        Ok(()) => execute(thread, program, host, guest, instr),
    }
}

/// One step: an instruction, or the end of a block or a frame. False at the end of the run.
///
/// # Errors
///
/// As of [`execute`]; `GasExceeded` also where the gas that is left does not pay for the instruction.
#[inline]
pub fn turn<'a, H: Host>(
    thread: &mut Thread<'a>,
    program: &'a Program,
    limits: Limits,
    host: &mut H,
    guest: &mut Guest,
) -> Result<bool, Stop>
    requires { 1 ≤ limits.cost }
    ensures turns { Turns result (H.state host.new) guest.new thread.new (runtime (H.state host.old) guest.old)
        (stepped (rules_of H.meaning program.now limits) (config_of (H.state host.old) guest.old thread.old)) }
    ensures falls { IfOk result (λ on. IsTrue on → work_left H.meaning (H.state host.new) thread.new
        < work_left H.meaning (H.state host.old) thread.old) }
    ensures shape { SameShape guest.old guest.new }
    ensures keeps { H.keeps host.old host.new }
{
    match thread.instr() {
        None => Ok(thread.leave()),
        Some(instr) => match obey(thread, program, limits, host, guest, instr) {
            Ok(()) => Ok(true),
            Err(stop) => Err(stop),
        },
    }
}

/// Whether a thread holds more than it may.
#[inline(always)]
pub fn is_too_large(thread: &Thread, limits: Limits) -> bool
    ensures { result ≡ is_too_large_at limits.max_frames limits.max_values thread.now }
{
    either(
        thread.frames() as u64 > limits.max_frames,
        thread.held() > limits.max_values,
    )
}

#[inline(always)]
fn either(first: bool, second: bool) -> bool
    ensures { result ≡ first || second }
{
    first || second
}

/// So many quiet instructions, or none where they might pass the limits: each adds at most one operand and no frame.
#[inline(always)]
fn room(thread: &Thread, limits: Limits, most: u32) -> u32
    ensures few { result ≤ most }
    ensures frames { 0 < result → frames_in thread.now.contexts ≤ limits.max_frames }
    ensures held { 0 < result → holds thread.now + result ≤ limits.max_values }
{
    if limits.max_values < most as u128 {
        return 0;
    }
    if thread.held() > limits.max_values - most as u128 {
        return 0;
    }
    if thread.frames() as u64 > limits.max_frames {
        return 0;
    }
    most
}

/// Runs quiet instructions, so many at most: how many there were, the one that stopped the run among them, and how
/// they ended. The host is asked nothing, and its gas isn't looked at, so there may be more than it pays for.
#[inline]
fn row<'a, H: Host>(
    thread: &mut Thread<'a>,
    program: &Program,
    limits: Limits,
    host: &H,
    guest: &Guest,
    most: u32,
) -> (u32, Result<(), Stop>)
    requires { 1 ≤ limits.cost }
    ensures rows { Rows (rules_of H.meaning program.now limits) guest.now (limits.cost * result.0) thread.old result.1
        thread.new }
    ensures few { result.0 ≤ most }
{
    let fit = room(thread, limits, most);
    let mut ran = 0;
    'steps: while ran < fit {
        match next_quiet(thread, program, guest) {
            None => return (ran, Ok(())),
            Some(Ok(())) => ran += 1,
            Some(Err(stop)) => return (ran + 1, Err(stop)),
        }
    }
    (ran, Ok(()))
}

/// How many instructions of this cost may be in a row: so few that what is due for them has 128 bits.
#[inline(always)]
fn most_of(cost: u128) -> u32
    ensures { cost * result < 2 ^ 128 }
{
    if cost < DEAR { LONGEST } else { 0 }
}

/// Pays for so many instructions, which ended so.
#[inline]
fn pay<H: Host>(host: &mut H, cost: u128, ran: u32, end: Result<(), Stop>) -> Result<(), Stop>
    requires cost { 1 ≤ cost }
    requires fits { cost * ran < 2 ^ 128 }
    ensures pays { Pays H.meaning (cost * ran) end result (H.state host.old) (H.state host.new) }
    ensures keeps { H.keeps host.old host.new }
{
    if ran == 0 {
        return end;
    }
    let due = cost * ran as u128;
    match host.burn(due) {
        Err(_exceeded) => Err(Stop::GasExceeded),
        Ok(()) => end,
    }
}

/// Runs a row of quiet instructions, which may be empty, and pays for it.
fn ride<'a, H: Host>(
    thread: &mut Thread<'a>,
    program: &Program,
    limits: Limits,
    host: &mut H,
    guest: &Guest,
) -> Result<(), Stop>
    requires { 1 ≤ limits.cost }
    ensures rides { Rides (rules_of H.meaning program.now limits) result (H.state host.new) guest.now thread.new
        (run_at (rules_of H.meaning program.now limits) (runtime (H.state host.old) guest.now) thread.old) }
    ensures falls { OnOk result (work_left H.meaning (H.state host.new) thread.new
        ≤ work_left H.meaning (H.state host.old) thread.old) }
    ensures keeps { H.keeps host.old host.new }
{
    let most = most_of(limits.cost);
    let (ran, end) = row(thread, program, limits, host, guest, most);
    pay(host, limits.cost, ran, end)
}

/// Takes a step, unless the thread holds more than it may. False at the end of the run.
fn hop<'a, H: Host>(
    thread: &mut Thread<'a>,
    program: &'a Program,
    limits: Limits,
    host: &mut H,
    guest: &mut Guest,
) -> Result<bool, Stop>
    requires { 1 ≤ limits.cost }
    ensures leaps { Leaps (rules_of H.meaning program.now limits) result (H.state host.new) guest.new thread.new
        (run_at (rules_of H.meaning program.now limits) (runtime (H.state host.old) guest.old) thread.old) }
    ensures falls { IfOk result (λ on. IsTrue on → work_left H.meaning (H.state host.new) thread.new
        < work_left H.meaning (H.state host.old) thread.old) }
    ensures shape { SameShape guest.old guest.new }
    ensures keeps { H.keeps host.old host.new }
{
    if is_too_large(thread, limits) {
        return Err(Stop::Trap(8));
    }
    turn(thread, program, limits, host, guest)
}

/// Runs a row, and takes the step after it. False at the end of the run.
fn leap<'a, H: Host>(
    thread: &mut Thread<'a>,
    program: &'a Program,
    limits: Limits,
    host: &mut H,
    guest: &mut Guest,
) -> Result<bool, Stop>
    requires { 1 ≤ limits.cost }
    ensures leaps { Leaps (rules_of H.meaning program.now limits) result (H.state host.new) guest.new thread.new
        (run_at (rules_of H.meaning program.now limits) (runtime (H.state host.old) guest.old) thread.old) }
    ensures falls { IfOk result (λ on. IsTrue on → work_left H.meaning (H.state host.new) thread.new
        < work_left H.meaning (H.state host.old) thread.old) }
    ensures shape { SameShape guest.old guest.new }
    ensures keeps { H.keeps host.old host.new }
{
    match ride(thread, program, limits, host, guest) {
        Ok(()) => hop(thread, program, limits, host, guest),
        Err(stop) => Err(stop),
    }
}

/// Takes steps to the end, those that are quiet in rows.
fn drive<'a, H: Host>(
    thread: &mut Thread<'a>,
    program: &'a Program,
    limits: Limits,
    host: &mut H,
    guest: &mut Guest,
) -> Result<(), Stop>
    requires { 1 ≤ limits.cost }
    ensures drives { Drives result (H.state host.new) guest.new
        (run_at (rules_of H.meaning program.now limits) (runtime (H.state host.old) guest.old) thread.old) }
    ensures shape { SameShape guest.old guest.new }
    ensures keeps { H.keeps host.old host.new }
{
    'steps: loop {
        match leap(thread, program, limits, host, guest) {
            Ok(true) => {}
            Ok(false) => return Ok(()),
            Err(stop) => return Err(stop),
        }
    }
}

/// Runs a function's body over locals.
fn start<H: Host>(
    alloc: Global,
    program: &Program,
    limits: Limits,
    host: &mut H,
    guest: &mut Guest,
    locals: usize,
    body: &[Instr],
) -> Result<(), Stop>
    requires { 1 ≤ limits.cost }
    ensures drives { Drives result (H.state host.new) guest.new
        (run_of (rules_of H.meaning program.now limits) (runtime (H.state host.old) guest.old) 0 (replicate locals 0)
        (code_of body.now)) }
    ensures shape { SameShape guest.old guest.new }
    ensures keeps { H.keeps host.old host.new }
{
    let Ok(locals) = vec![in alloc; 0; locals] else {
        return Err(Stop::Memory);
    };
    let Ok(mut thread) = Thread::start(alloc, locals, 0, body) else {
        return Err(Stop::Memory);
    };
    drive(&mut thread, program, limits, host, guest)
}

/// Runs a function.
fn attempt<H: Host>(
    alloc: Global,
    program: &Program,
    limits: Limits,
    host: &mut H,
    guest: &mut Guest,
    func: Func,
) -> Result<(), Stop>
    requires { 1 ≤ limits.cost }
    ensures drives { Drives result (H.state host.new) guest.new
        (run_in (rules_of H.meaning program.now limits) (runtime (H.state host.old) guest.old)
        (Some (func_of func.entry))) }
    ensures shape { SameShape guest.old guest.new }
    ensures keeps { H.keeps host.old host.new }
{
    match func {
        Func::Coded(_, body) => {
            start(
                alloc,
                program,
                limits,
                host,
                guest,
                body.locals().len(),
                body.code(),
            )
        }
        Func::Hosted(_, _) => Err(Stop::Lost),
    }
}

/// Runs the function with this number, of code that no one has looked at.
fn try_run<H: Host>(
    alloc: Global,
    program: &Program,
    limits: Limits,
    host: &mut H,
    guest: &mut Guest,
    func: u32,
) -> Result<(), Stop>
    requires { 1 ≤ limits.cost }
    ensures drives { Drives result (H.state host.new) guest.new
        (run_by (rules_of H.meaning program.now limits) (runtime (H.state host.old) guest.old) func) }
    ensures shape { SameShape guest.old guest.new }
    ensures keeps { H.keeps host.old host.new }
{
    match func_at(program, func) {
        Some(func) => attempt(alloc, program, limits, host, guest, func),
        None => Err(Stop::Lost),
    }
}

/// Runs a method.
///
/// # Errors
///
/// `Trap`, `GasExceeded` and `HostFault` as the code and the host mean it. `Memory`, after which nothing is said of
/// memory and globals.
pub fn run<H: Host>(
    alloc: Global,
    program: &Program,
    limits: Limits,
    host: &mut H,
    guest: &mut Guest,
    func: u32,
) -> Result<(), RunStop>
    requires cost { 1 ≤ limits.cost }
    requires hosts { program.now.hosts ≡ links program.now.code.imports }
    requires guest { IsGuest program.now guest.old }
    requires method { IsTrue (is_method (func_at program.now func)) }
    ensures ends { Ends result (H.state host.new) guest.new
        (run_by (rules_of H.meaning program.now limits) (runtime (H.state host.old) guest.old) func) }
    ensures shape { SameShape guest.old guest.new }
    ensures keeps { H.keeps host.old host.new }
{
    is_never_stuck(program, limits, host, guest, func);
    match try_run(alloc, program, limits, host, guest, func) {
        Ok(()) => Ok(()),
        Err(Stop::Trap(kind)) => Err(RunStop::Trap { kind }),
        Err(Stop::GasExceeded) => Err(RunStop::GasExceeded),
        Err(Stop::HostFault(kind)) => Err(RunStop::HostFault { kind }),
        Err(Stop::Lost) => unreachable!(),
        Err(Stop::Memory) => Err(RunStop::Memory),
    }
}

/// Valid code never comes to what no rule fits: a missing operand, an operand of the wrong type, or a
/// branch out of its blocks.
pub fn is_never_stuck<H: Host>(
    program: &Program,
    limits: Limits,
    host: &H,
    guest: &Guest,
    func: u32,
)
    requires hosts { program.now.hosts ≡ links program.now.code.imports }
    requires guest { IsGuest program.now guest.now }
    requires method { IsTrue (is_method (func_at program.now func)) }
    ensures { NeverStuck (run_by (rules_of H.meaning program.now limits) (runtime (H.state host.now) guest.now) func) }
{
    program.code.module();
    running_laws();
}
