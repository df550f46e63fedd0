//! Runs that leave a trail.

ghost use Rattle.std.specs.Prelude.{◌≡◌, ◌≤◌, ◌<◌, IfOk, IsTrue, Some, length, replicate};
ghost use Rattle.nr_wasmtypes.specs.Code.{code_of};
ghost use Rattle.nr_wasmexec.specs.Executing.{func_of};
ghost use Rattle.nr_wasmexec.specs.Functions.{func_at, links};
ghost use Rattle.nr_wasmexec.specs.Machine.{NeverStuck, Turns, config_of, rules_of, run_at, runtime, work_left};
ghost use Rattle.nr_wasmexec.specs.Making.{is_method};
ghost use Rattle.nr_wasmexec.specs.Reduction.{run_by, run_in, run_of, stepped};
ghost use Rattle.nr_wasmexec.specs.Standing.{IsGuest};
ghost use Rattle.nr_trace.specs.Tracing.{EndsAt, Looks, Traces, Tracks, trail_at};
ghost use Rattle.nr_trace.specs.Trail.{first, looked, trail_by, trail_from, trail_in, trail_of};

use crate::following::{first, look};
use crate::placing::placed;
use crate::trail::{TraceStop, Trail};
use nr_wasmexec::{
    Func, Limits, Machine, Parts, Program, Stop, Thread, func_at, is_never_stuck, is_too_large,
    turn,
};
use nr_wasmmem::{Guest, Host};
use nr_wasmtypes::{FuncBody, Instr};
use std::alloc::Global;

/// Notes the next instruction, and takes one step. False at the end of the run.
fn pass<'a, H: Host>(
    thread: &mut Thread<'a>,
    trail: &mut Trail<'a>,
    program: &'a Program,
    limits: Limits,
    host: &mut H,
    guest: &mut Guest,
) -> Result<bool, Stop>
    requires { 1 ≤ limits.cost }
    ensures turns { Turns result (H.state host.new) guest.new thread.new (runtime (H.state host.old) guest.old)
        (stepped (rules_of H.meaning program.now limits) (config_of (H.state host.old) guest.old thread.old)) }
    ensures looks { Looks result (trail_of trail.new
        ≡ looked program.now guest.old (thread.old.values, thread.old.code) (trail_of trail.old)) }
    ensures falls { IfOk result (λ on. IsTrue on → work_left H.meaning (H.state host.new) thread.new
        < work_left H.meaning (H.state host.old) thread.old) }
    ensures keeps { H.keeps host.old host.new }
{
    match look(trail, thread, program, guest) {
        Ok(()) => turn(thread, program, limits, host, guest),
        Err(_) => Err(Stop::Memory),
    }
}

/// Takes steps to the end.
fn pace<'a, H: Host>(
    thread: &mut Thread<'a>,
    trail: &mut Trail<'a>,
    program: &'a Program,
    limits: Limits,
    host: &mut H,
    guest: &mut Guest,
) -> Result<(), Stop>
    requires { 1 ≤ limits.cost }
    ensures tracks { let w = rules_of H.meaning program.now limits in
        let s = runtime (H.state host.old) guest.old in
        Tracks result (H.state host.new) guest.new (trail_of trail.new) (run_at w s thread.old)
        (trail_at w s thread.old (trail_of trail.old)) }
    ensures keeps { H.keeps host.old host.new }
{
    'steps: loop {
        if is_too_large(thread, limits) {
            return Err(Stop::Trap(8));
        }
        match pass(thread, trail, program, limits, host, guest) {
            Ok(true) => {}
            Ok(false) => return Ok(()),
            Err(stop) => return Err(stop),
        }
    }
}

/// Runs a function's body over locals.
fn start<'a, H: Host>(
    alloc: Global,
    trail: &mut Trail<'a>,
    program: &'a Program,
    limits: Limits,
    host: &mut H,
    guest: &mut Guest,
    locals: usize,
    body: &'a [Instr],
) -> Result<(), Stop>
    requires { 1 ≤ limits.cost }
    ensures tracks { let w = rules_of H.meaning program.now limits in
        let s = runtime (H.state host.old) guest.old in
        Tracks result (H.state host.new) guest.new (trail_of trail.new)
        (run_of w s 0 (replicate locals 0) (code_of body.now))
        (trail_from w s 0 (replicate locals 0) (code_of body.now) (trail_of trail.old)) }
    ensures keeps { H.keeps host.old host.new }
{
    let Ok(locals) = vec![in alloc; 0; locals] else {
        return Err(Stop::Memory);
    };
    let Ok(mut thread) = Thread::start(alloc, locals, 0, body) else {
        return Err(Stop::Memory);
    };
    pace(&mut thread, trail, program, limits, host, guest)
}

/// Runs a body over its locals.
fn run_body<'a, H: Host>(
    alloc: Global,
    trail: &mut Trail<'a>,
    program: &'a Program,
    limits: Limits,
    host: &mut H,
    guest: &mut Guest,
    body: &'a FuncBody,
) -> Result<(), Stop>
    requires { 1 ≤ limits.cost }
    ensures tracks { let w = rules_of H.meaning program.now limits in
        let s = runtime (H.state host.old) guest.old in
        Tracks result (H.state host.new) guest.new (trail_of trail.new)
        (run_of w s 0 (replicate (length body.now.locals) 0) body.now.code)
        (trail_from w s 0 (replicate (length body.now.locals) 0) body.now.code (trail_of trail.old)) }
    ensures keeps { H.keeps host.old host.new }
{
    start(
        alloc,
        trail,
        program,
        limits,
        host,
        guest,
        body.locals().len(),
        body.code(),
    )
}

/// Runs the code of the function with this number.
fn follow_body<'a, H: Host>(
    alloc: Global,
    program: &'a Program,
    limits: Limits,
    host: &mut H,
    guest: &mut Guest,
    func: u32,
    body: &'a FuncBody,
) -> Result<(), TraceStop>
    requires cost { 1 ≤ limits.cost }
    requires never { NeverStuck (run_of (rules_of H.meaning program.now limits)
        (runtime (H.state host.old) guest.old) 0 (replicate (length body.now.locals) 0) body.now.code) }
    ensures ends { let w = rules_of H.meaning program.now limits in
        let s = runtime (H.state host.old) guest.old in
        EndsAt result program.now (H.state host.new) guest.new
        (run_of w s 0 (replicate (length body.now.locals) 0) body.now.code)
        (trail_from w s 0 (replicate (length body.now.locals) 0) body.now.code (first func body.now.code)) }
    ensures keeps { H.keeps host.old host.new }
{
    let mut trail = first(alloc, func, body);
    match run_body(alloc, &mut trail, program, limits, host, guest, body) {
        Ok(()) => Ok(()),
        Err(Stop::Trap(kind)) => Err(placed(program, kind, &trail)),
        Err(Stop::GasExceeded) => Err(TraceStop::GasExceeded),
        Err(Stop::HostFault(kind)) => Err(TraceStop::HostFault { kind }),
        Err(Stop::Lost) => unreachable!(),
        Err(Stop::Memory) => Err(TraceStop::Memory),
    }
}

/// Runs a function with this number.
fn follow_func<'a, H: Host>(
    alloc: Global,
    program: &'a Program,
    limits: Limits,
    host: &mut H,
    guest: &mut Guest,
    number: u32,
    func: Func<'a>,
) -> Result<(), TraceStop>
    requires cost { 1 ≤ limits.cost }
    requires never { NeverStuck (run_in (rules_of H.meaning program.now limits)
        (runtime (H.state host.old) guest.old) (Some (func_of func))) }
    ensures ends { let w = rules_of H.meaning program.now limits in
        let s = runtime (H.state host.old) guest.old in
        EndsAt result program.now (H.state host.new) guest.new (run_in w s (Some (func_of func.entry)))
        (trail_in w s number (Some (func_of func.entry))) }
    ensures keeps { H.keeps host.old host.new }
{
    match func {
        Func::Coded(_, body) => follow_body(alloc, program, limits, host, guest, number, body),
        Func::Hosted(_, _) => unreachable!(),
    }
}

/// Runs a method, and tells the place of a trap.
fn trace_func<'a, H: Host>(
    alloc: Global,
    program: &'a Program,
    limits: Limits,
    host: &mut H,
    guest: &mut Guest,
    func: u32,
) -> Result<(), TraceStop>
    requires cost { 1 ≤ limits.cost }
    requires hosts { program.now.hosts ≡ links program.now.code.imports }
    requires guest { IsGuest program.now guest.old }
    requires method { IsTrue (is_method (func_at program.now func)) }
    ensures ends { let w = rules_of H.meaning program.now limits in
        let s = runtime (H.state host.old) guest.old in
        EndsAt result program.now (H.state host.new) guest.new (run_by w s func) (trail_by w s func) }
    ensures keeps { H.keeps host.old host.new }
{
    is_never_stuck(program, limits, host, guest, func);
    match func_at(program, func) {
        Some(found) => follow_func(alloc, program, limits, host, guest, func, found),
        None => unreachable!(),
    }
}

/// Runs a method of a machine to its end over a host, as `Machine::run` does, and tells where a trap came. The machine
/// is let go. A step takes longer than one of `run`.
///
/// # Errors
///
/// As of `run`, `Trap` with the place of the instruction. `Memory` also where none was left for the trail.
pub fn trace<H: Host>(
    alloc: Global,
    machine: Machine,
    host: &mut H,
    func: u32,
) -> Result<(), TraceStop>
    requires { IsTrue (is_method (func_at machine.program func)) }
    ensures ends { let w = rules_of H.meaning machine.program machine.limits in
        let s = runtime (H.state host.old) machine.guest in
        Traces result machine.program (H.state host.new) (run_by w s func) (trail_by w s func) }
    ensures keeps { H.keeps host.old host.new }
{
    let Parts {
        program,
        limits,
        mut guest,
    } = machine.into_parts();
    trace_func(alloc, &program, limits, host, &mut guest, func)
}
