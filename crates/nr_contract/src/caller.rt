//! The caller of contracts.

ghost use Rattle.std.specs.Prelude.{◌≡◌, ◌≤◌, ◌+◌, ◌*◌, [], IsSome, IsTrue, true};
ghost use Rattle.std.specs.FinMap.{get};
ghost use Rattle.nr_config.specs.Config.{IsValidConfig, load_base, load_byte};
ghost use Rattle.nr_wasmexec.specs.Functions.{func_at};
ghost use Rattle.nr_wasmexec.specs.Making.{is_method};
ghost use Rattle.nr_contract.specs.Contract.{run, first_state, call};
ghost use Rattle.nr_wasmmem.specs.Meaning.{burnt};
ghost use Rattle.nr_hostctx.specs.Host.{meaning, with_guest, Holds};
ghost use Rattle.nr_hostctx.specs.State.{state_of};
ghost use Rattle.nr_contract.specs.Calls.{Runs, DrivesTo, StaysWhole, ended_as};

use crate::keeping::KeptModules;
use crate::parts::{FAILED_BINDING, OUT_OF_GAS, TRAPPED};
use crate::preparing::prepare_kept;
use crate::refused::Refused;
use nr_config::Config;
use nr_config::entries::{LOAD_BASE, LOAD_BYTE};
use nr_hostctx::HostContext;
use nr_state::{CallContext, CallEnd, CallStop, Caller, ShardState};
use nr_triedef::Store;
use nr_wasmexec::{Machine, RunStop};
use nr_wasmmem::Host;
use std::alloc::Global;
use std::marker::Model;

/// Runs contracts under one configuration.
///
/// A call loads the code, decodes and validates it, looks the method up, makes the machine and runs the method. It
/// fails with kind 13 where the code can't be decoded (parts 1 to 7), isn't valid (11 to 15) or has an element or a
/// segment that doesn't fit (21), with 14 where there is no such method, with 15 at a trap and 16 at a fault of a
/// binding, whose numbers are the parts, and with 17 where the gas doesn't suffice. A failed call changes nothing.
///
/// Some modules of late calls are kept with their code: a call of the same bytes neither decodes nor validates them. It
/// comes to the same.
#[derive(Debug, Drop)]
pub struct ContractCaller {
    config: Config,
    modules: KeptModules,
}

impl Model for ContractCaller {
    ghost use Rattle.nr_config.specs.Config.{Config};

    ghost Value = { Config };

    ghost view = { λ a. a.config };
}

impl ContractCaller {
    /// A caller under this configuration.
    pub fn new(config: &Config) -> ContractCaller
        ensures { result ≡ config.now }
    {
        ContractCaller {
            config: *config,
            modules: KeptModules::new(),
        }
    }
}

/// How a run ended that burnt so much gas.
fn ended_as(end: Result<(), RunStop>, burnt: u64) -> Result<(), CallStop>
    ensures { result ≡ ended_as end burnt }
{
    let (kind, part) = match end {
        Ok(()) => return Ok(()),
        Err(RunStop::Trap { kind }) => (TRAPPED, kind),
        Err(RunStop::HostFault { kind }) => (FAILED_BINDING, kind),
        Err(RunStop::GasExceeded) => (OUT_OF_GAS, 0),
        Err(RunStop::Memory) => return Err(CallStop::Memory),
    };
    Err(CallStop::Failed { kind, part, burnt })
}

/// Runs a method to its end over a host, once the loading is paid.
#[tactic(auto, using(crate::proofs::Ending::drives))]
fn drive<S: Store>(
    host: &mut HostContext<'_, S>,
    machine: &mut Machine,
    func: u32,
    load: u64,
) -> Result<(), CallStop>
    requires runs { IsTrue (is_method (func_at machine.old.program func)) }
    requires cost { 1 ≤ machine.old.limits.cost }
    ensures drives { DrivesTo result (with_guest (state_of host.new) [])
        (run (burnt meaning (with_guest (state_of host.old) []) load) machine.old func) }
    ensures whole { StaysWhole result host.new }
    ensures keeps { Holds host.old host.new }
    ensures same_reference { host.new.callee.state.ghost_name ≡ host.old.callee.state.ghost_name }
    ensures program { machine.new.program ≡ machine.old.program }
{
    if host.burn(u128::from(load)).is_err() {
        return Err(CallStop::Memory);
    }
    let end = machine.run(host, func);
    if !host.whole() {
        return Err(CallStop::Memory);
    }
    ended_as(end, host.burnt())
}

/// Runs a method to its end over a state, once the loading is paid.
fn run_method<S: Store>(
    alloc: Global,
    state: &mut ShardState<S>,
    context: &CallContext,
    config: &Config,
    machine: &mut Machine,
    func: u32,
    load: u64,
) -> Result<CallEnd, CallStop>
    requires whole { state.old.whole ≡ true }
    requires stands { IsSome (get state.old.world.accounts context.now.current) }
    requires config { state.old.config ≡ config.now }
    requires runs { IsTrue (is_method (func_at machine.old.program func)) }
    requires cost { 1 ≤ machine.old.limits.cost }
    ensures ends { Runs result state.old state.new
        (run (first_state config.now state.old.world context.now load) machine.old func) }
    ensures program { machine.new.program ≡ machine.old.program }
{
    let Ok(mut host) = HostContext::new(alloc, state, context, config) else {
        return Err(CallStop::Memory);
    };
    let run = drive(&mut host, machine, func, load);
    let (end, _lent) = host.finish();
    run?;
    Ok(end)
}

/// Runs a method of the current account's code.
#[tactic(auto, using(crate::proofs::Making::still_loaded), unfolding(crate::specs::Contract::call))]
fn run_code<S: Store>(
    alloc: Global,
    state: &mut ShardState<S>,
    context: &CallContext,
    config: &Config,
    modules: &KeptModules,
) -> Result<CallEnd, CallStop>
    requires whole { state.old.whole ≡ true }
    requires stands { IsSome (get state.old.world.accounts context.now.current) }
    requires config { state.old.config ≡ config.now }
    ensures { Runs result state.old state.new (call config.now state.old.world context.now) }
{
    let Ok(code) = state.code(&context.current) else {
        return Err(CallStop::Memory);
    };
    let code = code.unwrap_or(&[]);
    let load = load_gas(code.len(), config);
    if load > u128::from(context.gas) {
        return Err(CallStop::Failed {
            kind: OUT_OF_GAS,
            part: 0,
            burnt: context.gas,
        });
    }
    let load = load as u64;
    let method = context.method.inner().as_bytes();
    let (prepared, copy) = prepare_kept(alloc, modules, code, method, config);
    match prepared {
        Ok((mut machine, func)) => {
            let result = run_method(alloc, state, context, config, &mut machine, func, load);
            if let Some(code) = copy {
                modules.put(code, machine.into_code(), config);
            }
            result
        }
        Err(Refused::Failed { kind, part }) => Err(CallStop::Failed {
            kind,
            part,
            burnt: load,
        }),
        Err(Refused::Memory) => Err(CallStop::Memory),
    }
}

/// What the loading of so many bytes of code costs.
fn load_gas(bytes: usize, config: &Config) -> u128
    ensures cost { result ≡ load_base config.now + load_byte config.now * bytes }
    ensures valid { IsValidConfig config.now }
{
    u128::from(config.entry(LOAD_BASE)) + u128::from(config.entry(LOAD_BYTE)) * bytes as u128
}

impl<S: Store> Caller<S> for ContractCaller {
    ghost use Rattle.nr_contract.specs.Contract.{call};
    ghost use Rattle.nr_contract.specs.Law.{is_caller};
    ghost use Rattle.nr_contract.specs.LocalCalls.{call_is_local};

    ghost config = { λ caller. caller };

    ghost meaning = { λ caller. call caller };

    ghost law = { λ caller. is_caller caller };

    ghost local = { λ caller. call_is_local caller };

    fn call(
        &self,
        alloc: Global,
        state: &mut ShardState<S>,
        context: &CallContext,
    ) -> Result<CallEnd, CallStop> {
        if state.reserve_marks(1).is_err() {
            return Err(CallStop::Memory);
        }
        state.mark();
        let result = run_code(alloc, state, context, &self.config, &self.modules);
        match &result {
            Ok(_) => state.keep(),
            Err(CallStop::Failed { .. }) => state.back(),
            Err(CallStop::Memory) => {}
        }
        result
    }
}
