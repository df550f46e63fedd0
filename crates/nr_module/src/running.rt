//! Runs of methods, and whether a machine can be made.

ghost use Rattle.std.specs.Prelude.{◌≡◌, IfOk, IsTrue, Some};
ghost use Rattle.nr_config.specs.Config.{max_pages};
ghost use Rattle.nr_wasmvalid.specs.Modules.{IsValid};
ghost use Rattle.nr_wasmexec.specs.Functions.{func_at};
ghost use Rattle.nr_wasmexec.specs.Making.{is_method, machine_of, method_of, program_of};
ghost use Rattle.nr_module.specs.Command.{task_in};
ghost use Rattle.nr_module.specs.Verdicts.{IsAnswer};
ghost use Rattle.nr_module.specs.Running.{IsCheck, IsRun, IsRunIn, RunsTo, told};

use crate::command::Work;
use crate::lookup::method_named;
use crate::tracing::trace_method;
use crate::verdict::Answer;
use nr_config::Config;
use nr_wasmexec::{Gauge, Machine, MakeFault, RunStop};
use nr_wasmvalid::Valid;
use std::alloc::{AllocError, Global};

/// The answer of a run that ended so, and burnt so much gas.
fn told(end: Result<(), RunStop>, burnt: u128) -> Result<Answer, AllocError>
    ensures { IfOk result (λ answer. told end burnt ≡ Some answer) }
{
    match end {
        Ok(()) => Ok(Answer::Ended { burnt }),
        Err(RunStop::Trap { kind }) => Ok(Answer::Trapped { kind, burnt }),
        Err(RunStop::GasExceeded) => Ok(Answer::OutOfGas { burnt }),
        Err(RunStop::HostFault { kind }) => Ok(Answer::Failed { kind, burnt }),
        Err(RunStop::Memory) => Err(AllocError),
    }
}

/// Runs a function.
#[tactic(auto, using(crate::proofs::Runs::came))]
fn run_func(machine: &mut Machine, func: u32, gas: u64) -> Result<Answer, AllocError>
    requires { IsTrue (is_method (func_at machine.old.program func)) }
    ensures { IfOk result (λ a. RunsTo machine.old gas func a) }
{
    let mut host = Gauge {
        gas: u128::from(gas),
    };
    let end = machine.run(&mut host, func);
    told(end, u128::from(gas).saturating_sub(host.gas))
}

/// Makes the machine of a module, and runs a function of it.
fn run_made(
    alloc: Global,
    valid: Valid,
    config: &Config,
    func: u32,
    gas: u64,
) -> Result<Answer, AllocError>
    requires valid { IsValid (max_pages config.now) valid }
    requires runs { IsTrue (is_method (func_at (program_of valid) func)) }
    ensures { IfOk result (λ a. IsRunIn (machine_of config.now valid) gas func a) }
{
    match Machine::new(alloc, valid, config) {
        Ok(mut machine) => run_func(&mut machine, func, gas),
        Err(MakeFault::Segment) => Ok(Answer::Unmade),
        Err(MakeFault::Memory) => Err(AllocError),
    }
}

/// Looks a method up in a module and, where there is one of this name, runs it.
fn run_method(
    alloc: Global,
    valid: Valid,
    config: &Config,
    method: &str,
    gas: u64,
) -> Result<Answer, AllocError>
    requires { IsValid (max_pages config.now) valid }
    ensures { IfOk result
        (λ a. IsRun (method_of (program_of valid) method.now) (machine_of config.now valid) gas a) }
{
    match method_named(&valid, method.as_bytes()) {
        Some(func) => run_made(alloc, valid, config, func, gas),
        None => Ok(Answer::NoMethod),
    }
}

/// Tells whether the machine of a module can be made.
fn check(alloc: Global, valid: Valid, config: &Config) -> Result<Answer, AllocError>
    requires { IsValid (max_pages config.now) valid }
    ensures { IfOk result (λ a. IsCheck (machine_of config.now valid) a) }
{
    match Machine::new(alloc, valid, config) {
        Ok(_) => Ok(Answer::Good),
        Err(MakeFault::Segment) => Ok(Answer::Unfit),
        Err(MakeFault::Memory) => Err(AllocError),
    }
}

/// Does the work with a valid module, whose file has these bytes.
///
/// # Errors
///
/// Where memory runs out.
pub(crate) fn answer(
    alloc: Global,
    valid: Valid,
    config: &Config,
    bytes: &Vec<u8>,
    work: Work<'_>,
) -> Result<Answer, AllocError>
    requires { IsValid (max_pages config.now) valid }
    ensures { IfOk result (λ a. IsAnswer config.now bytes.now.items valid (task_in work.entry) a) }
{
    match work {
        Work::Check => check(alloc, valid, config),
        Work::Run { method, gas } => run_method(alloc, valid, config, method, gas),
        Work::Trap { method, gas } => trace_method(alloc, valid, config, bytes, method, gas),
    }
}
