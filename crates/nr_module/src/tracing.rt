//! Runs of methods that tell where a trap came.

ghost use Rattle.std.specs.Prelude.{◌≡◌, IfOk, IsTrue, Some};
ghost use Rattle.nr_config.specs.Config.{max_pages};
ghost use Rattle.nr_wasmvalid.specs.Modules.{IsValid};
ghost use Rattle.nr_wasmexec.specs.Functions.{func_at};
ghost use Rattle.nr_wasmexec.specs.Making.{is_method, machine_of, method_of, program_of};
ghost use Rattle.nr_module.specs.Listing.{imported_count};
ghost use Rattle.nr_module.specs.Running.{IsTrace, IsTraceIn, TracesTo, located, told_at};

use crate::listing::imported_count;
use crate::lookup::method_named;
use crate::verdict::Answer;
use nr_config::Config;
use nr_trace::{TraceStop, find_instruction, trace};
use nr_wasmbin::DecodeFault;
use nr_wasmexec::{Gauge, Machine, MakeFault};
use nr_wasmvalid::Valid;
use std::alloc::{AllocError, Global};

/// The answer of a trap at an instruction of a function, in a module that imports so many functions.
fn trap_answer(
    alloc: Global,
    bytes: &Vec<u8>,
    imported: usize,
    kind: u32,
    func: u32,
    place: u64,
    burnt: u128,
) -> Result<Answer, AllocError>
    ensures { IfOk result (λ a. Some (located bytes.now.items imported kind burnt (func, place)) ≡ Some a) }
{
    let body = (func as usize).saturating_sub(imported);
    match find_instruction(alloc, bytes, body, place) {
        Ok(at) => Ok(Answer::TrappedAt {
            kind,
            burnt,
            func,
            at,
        }),
        Err(DecodeFault::Memory) => Err(AllocError),
        Err(_) => Ok(Answer::Trapped { kind, burnt }),
    }
}

/// The answer of a run that left a trail, ended so, and burnt so much gas.
fn told_at(
    alloc: Global,
    bytes: &Vec<u8>,
    imported: usize,
    end: Result<(), TraceStop>,
    burnt: u128,
) -> Result<Answer, AllocError>
    ensures { IfOk result (λ a. told_at bytes.now.items imported end burnt ≡ Some a) }
{
    match end {
        Ok(()) => Ok(Answer::Ended { burnt }),
        Err(TraceStop::Trap { kind, func, place }) => {
            trap_answer(alloc, bytes, imported, kind, func, place, burnt)
        }
        Err(TraceStop::GasExceeded) => Ok(Answer::OutOfGas { burnt }),
        Err(TraceStop::HostFault { kind }) => Ok(Answer::Failed { kind, burnt }),
        Err(TraceStop::Memory) => Err(AllocError),
    }
}

/// Runs a function, and tells where a trap came.
fn trace_func(
    alloc: Global,
    machine: Machine,
    bytes: &Vec<u8>,
    imported: usize,
    func: u32,
    gas: u64,
) -> Result<Answer, AllocError>
    requires { IsTrue (is_method (func_at machine.program func)) }
    ensures { IfOk result (λ a. TracesTo bytes.now.items imported machine gas func a) }
{
    let mut host = Gauge {
        gas: u128::from(gas),
    };
    let end = trace(alloc, machine, &mut host, func);
    told_at(
        alloc,
        bytes,
        imported,
        end,
        u128::from(gas).saturating_sub(host.gas),
    )
}

/// Makes the machine of a module, and runs a function of it so.
fn trace_made(
    alloc: Global,
    valid: Valid,
    config: &Config,
    bytes: &Vec<u8>,
    imported: usize,
    func: u32,
    gas: u64,
) -> Result<Answer, AllocError>
    requires valid { IsValid (max_pages config.now) valid }
    requires runs { IsTrue (is_method (func_at (program_of valid) func)) }
    ensures { IfOk result (λ a. IsTraceIn bytes.now.items imported (machine_of config.now valid) gas func a) }
{
    match Machine::new(alloc, valid, config) {
        Ok(machine) => trace_func(alloc, machine, bytes, imported, func, gas),
        Err(MakeFault::Segment) => Ok(Answer::Unmade),
        Err(MakeFault::Memory) => Err(AllocError),
    }
}

fn imports_of(valid: &Valid) -> usize
    ensures { result ≡ imported_count valid.now }
{
    imported_count(valid.module())
}

/// Looks a method up in a module and, where there is one of this name, runs it and tells where a trap came.
///
/// # Errors
///
/// Where memory runs out.
pub(crate) fn trace_method(
    alloc: Global,
    valid: Valid,
    config: &Config,
    bytes: &Vec<u8>,
    method: &str,
    gas: u64,
) -> Result<Answer, AllocError>
    requires { IsValid (max_pages config.now) valid }
    ensures { IfOk result (λ a. IsTrace bytes.now.items (imported_count valid) (method_of (program_of valid) method.now)
        (machine_of config.now valid) gas a) }
{
    let imported = imports_of(&valid);
    match method_named(&valid, method.as_bytes()) {
        Some(func) => trace_made(alloc, valid, config, bytes, imported, func, gas),
        None => Ok(Answer::NoMethod),
    }
}
