//! What the definition of a contract's call rests on. Each function here does nothing when it runs: its contract is the
//! law.

ghost use Rattle.std.specs.Prelude.{◌≡◌, ◌≤◌, ◌<◌, ◌+◌, ◌*◌, ◌^◌, ◌↔◌, ℕ, List, Option, length, Ok, Err};
ghost use Rattle.nr_bytes.specs.Numbers.{IsBytes};
ghost use Rattle.nr_config.specs.Config.{Config, IsValidConfig};
ghost use Rattle.nr_contract.specs.Contract.{call, enough, first_state, load_gas, code_in, over, run};
ghost use Rattle.nr_contract.specs.Runs.{IsOver};
ghost use Rattle.nr_contract.specs.Verdicts.{module_verdict};
ghost use Rattle.nr_contract_laws.specs.Ending.{IsFailure, steps};
ghost use Rattle.nr_contract_laws.specs.Moments.{IsRun, Leads, StaysCounted, begun, rules, start};
ghost use Rattle.nr_contract_laws.specs.Numbers.{FitsContext, FitsState, most_added, usage_of};
ghost use Rattle.nr_hostctx.specs.Host.{meaning};
ghost use Rattle.nr_hostctx.specs.declared.seen.HostState.{HostState};
ghost use Rattle.nr_machine_laws.specs.Steps.{GivesOf};
ghost use Rattle.nr_machine_laws.specs.Typed.{IsTypedConfig};
ghost use Rattle.nr_state.specs.Calls.{Stopped};
ghost use Rattle.nr_state.specs.World.{World};
ghost use Rattle.nr_state.specs.declared.calls.CallContext.{CallContext};
ghost use Rattle.nr_wasmbin.specs.Grammar.{IsModule};
ghost use Rattle.nr_wasmbin.specs.Modules.{decoded};
ghost use Rattle.nr_wasmexec.specs.Making.{MachineView};
ghost use Rattle.nr_wasmexec.specs.Reduction.{Config as State, Unfinished, run_by, runs};
ghost use Rattle.nr_wasmmem.specs.Meaning.{Gives, Store};
ghost use Rattle.nr_wasmtypes.specs.Host.{host_type};
ghost use Rattle.nr_wasmtypes.specs.declared.host.HostFn.{HostFn};
ghost use Rattle.nr_wasmtypes.specs.declared.host.HostFn.TheVariants.{StorageUsage};
ghost use Rattle.nr_wasmtypes.specs.declared.module.Module.{Module};
ghost use Rattle.nr_wasmvalid.specs.Modules.{IsFirstBreach, IsValid};
ghost use Rattle.nr_wasmvalid.specs.declared.fault.ValidFault.{ValidFault};

use nr_hostctx::HostContext;
use nr_machine_laws::laws::typing_laws;
use nr_records::Account;
use nr_state::CallContext;
use nr_store::PlainStore;
use nr_wasmvalid::running_laws;

/// The verdict on a module, which is computed by two stacks, is that of typing.
pub fn verdict_laws()
    // It is "valid" exactly where the module is valid by typing, for a memory of at most so many pages at the start.
    ensures valid { (pages : ℕ) (m : Module) → (module_verdict pages m ≡ Ok tt) ↔ IsValid pages m }
    // It is a fault exactly where this is the module's first breach.
    ensures breach { (pages : ℕ) (m : Module) (e : ValidFault)
        → (module_verdict pages m ≡ Err e) ↔ IsFirstBreach pages m e }
{}

/// What reading makes of some bytes is what the grammar says of them.
pub fn decoding_laws()
    // A module is read exactly where the bytes spell it, and are at most so many.
    ensures spelled { (most : ℕ) (bytes : List ℕ) (m : Module)
        → (decoded most bytes ≡ Ok m) ↔ ((length bytes ≤ most) × IsModule bytes m) }
    // No bytes spell two modules.
    ensures one { (bytes : List ℕ) (m n : Module) → IsModule bytes m → IsModule bytes n → m ≡ n }
{}

/// How a call ends is told without a number of steps.
pub fn ending_laws()
    // A call that stops has one of the kinds of failure, 13 to 17.
    ensures kinds { (c : Config) (w : World) (x : CallContext) (kind part burnt : ℕ) → IsValidConfig c
        → call c w x ≡ Stopped kind part burnt → IsFailure kind }
    // A run comes to what it comes to in any number of steps in which it is over.
    ensures comes { (s : HostState) (m : MachineView) (f n : ℕ) → 1 ≤ m.limits.cost → IsOver (steps s m f n)
        → run s m f ≡ over (steps s m f n) }
    // In twice as many steps as gas is left and two more, or in any more, it is over.
    ensures ends { (s : HostState) (m : MachineView) (f n : ℕ) → 1 ≤ m.limits.cost → enough (meaning.gas s) ≤ n
        → IsOver (steps s m f n) }
{
    running_laws();
}

/// What the host's functions give is of their types.
pub fn answer_laws()
    // Where the numbers of the state fit, each function gives a number of its type, or none where it has no result:
    // `storage_usage` as long as the account is counted as less than 2^64 bytes of storage.
    ensures answers { (s : Store HostState) (f : HostFn) (args : List ℕ) → FitsState s.host
        → (f ≡ StorageUsage → usage_of s.host < 2 ^ 64)
        → GivesOf (host_type f).result (meaning.call s f args).answer }
    // Behind a call that goes on they fit too, and the account is counted as at most so much more.
    ensures goes_on { (s : Store HostState) (f : HostFn) (args : List ℕ) (value : Option ℕ) → FitsState s.host
        → (meaning.call s f args).answer ≡ Gives value
        → FitsState (meaning.call s f args).store.host
        × (usage_of (meaning.call s f args).store.host ≤ usage_of s.host + most_added s.host.config) }
    // They fit as a call begins.
    ensures begins { (c : Config) (w : World) (x : CallContext) (load : ℕ) → IsValidConfig c → FitsContext x
        → FitsState (first_state c w x load) }
{}

/// Each context of the code has such numbers.
pub fn context_law(context: &CallContext)
    ensures fits { FitsContext context.now }
{
    let _gas = context.gas;
    let _height = context.height.0;
    let _time = context.timestamp;
    let _inputs = context.inputs.inner().len();
}

/// Each account of the code is counted as less than 2^64 bytes of storage.
pub fn account_law(account: &Account)
    ensures counted { account.now.storage_usage < 2 ^ 64 }
{
    let _usage = account.storage_usage;
}

/// Code is bytes.
pub fn code_law(code: &[u8])
    ensures bytes { IsBytes code.now }
{
    let _code = code;
}

/// At each moment of a contract's call operands, locals and globals are of their types.
pub fn moment_laws<'a>()
    // The call is the run of its method in its machine, once the loading is paid.
    ensures same { (c : Config) (w : World) (x : CallContext) (m : MachineView) (f : ℕ) → IsRun c w x m f
        → load_gas c (code_in w x.current) ≤ x.gas → call c w x ≡ run (begun c w x) m f }
    // Whatever number of steps leads from there, as long as the account is counted as less than 2^64 bytes of storage.
    ensures typed { (c : Config) (w : World) (x : CallContext) (m : MachineView) (f n : ℕ) (s : State HostState)
        → IsRun c w x m f → StaysCounted c w x m f n → Leads (rules m) (start c w x m) f n s
        → IsTypedConfig m.program s }
    // It is counted as at most so much more for each step.
    ensures counted { (c : Config) (w : World) (x : CallContext) (m : MachineView) (f n : ℕ) (s : State HostState)
        → IsRun c w x m f → Leads (rules m) (start c w x m) f n s
        → usage_of s.store.host ≤ usage_of (begun c w x) + n * most_added c }
    // With more steps the run is where these lead from there.
    ensures way { (c : Config) (w : World) (x : CallContext) (m : MachineView) (f n k : ℕ) (s : State HostState)
        → Leads (rules m) (start c w x m) f n s
        → run_by (rules m) (start c w x m) f (n + k) ≡ runs (rules m) k s }
    // A run that isn't over in so many steps is where these lead.
    ensures each { (c : Config) (w : World) (x : CallContext) (m : MachineView) (f n : ℕ)
        → run_by (rules m) (start c w x m) f n ≡ Unfinished
        → (s : State HostState) × Leads (rules m) (start c w x m) f n s }
{
    typing_laws::<HostContext<'a, PlainStore>>();
}
