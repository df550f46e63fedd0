//! Operands, locals and globals are of their types along a run of valid code (WebAssembly Core 1.0, appendix
//! "Soundness"). Each function here does nothing when it runs: its contract is the law.

ghost use Rattle.std.specs.Prelude.{◌≡◌, ◌+◌, ℕ, IsTrue, List, Some, Ok};
ghost use Rattle.nr_bytes.specs.Numbers.{IsBytes};
ghost use Rattle.nr_config.specs.Config.{Config, IsValidConfig, max_pages};
ghost use Rattle.nr_machine_laws.specs.Steps.{AnswersNext, HasI32, Reaches, code_at, takes_raw, values_at};
ghost use Rattle.nr_machine_laws.specs.Typed.{AreConstants, IsTypedConfig, IsTypedGuest};
ghost use Rattle.nr_wasmbin.specs.Grammar.{IsModule};
ghost use Rattle.nr_wasmexec.specs.Functions.{func_at, links};
ghost use Rattle.nr_wasmexec.specs.Machine.{rules_of, runtime};
ghost use Rattle.nr_wasmexec.specs.Making.{MachineView, first_guest, is_method, machine_of};
ghost use Rattle.nr_wasmexec.specs.Reduction.{Config as State, Unfinished, paid, run_by, runs};
ghost use Rattle.nr_wasmexec.specs.declared.program.Limits.{Limits};
ghost use Rattle.nr_wasmexec.specs.declared.program.Program.{Program};
ghost use Rattle.nr_wasmmem.specs.declared.guest.Guest.{Guest};
ghost use Rattle.nr_wasmtypes.specs.declared.module.Module.{Module};
ghost use Rattle.nr_wasmvalid.specs.Modules.{IsValid};

use nr_wasmmem::Host;

/// What a run begins with is of its types.
pub fn beginning_laws()
    // A constant of a module that some bytes spell is a number of its type.
    ensures constants { (bytes : List ℕ) (m : Module) → IsBytes bytes → IsModule bytes m → AreConstants m }
    // The globals of a machine's first guest are of their types.
    ensures first { (c : Config) (m : Module) (g : Guest) → IsValidConfig c → IsValid (max_pages c) m → AreConstants m
        → first_guest (max_pages c) m ≡ Some g → IsTypedGuest m g }
{}

/// Any number of steps of a method leads to operands, locals and globals of their types, as long as what the host
/// gives is of its function's type.
pub fn typing_laws<H: Host>()
    // Of a machine that is made of a module's bytes.
    ensures made { (config : Config) (bytes : List ℕ) (m : Module) (x : MachineView) → IsValidConfig config
        → IsBytes bytes → IsModule bytes m → IsValid (max_pages config) m → machine_of config m ≡ Ok x
        → (s : H.State) (f n : ℕ) (c : State H.State) → IsTrue (is_method (func_at x.program f))
        → Reaches (rules_of H.meaning x.program x.limits) (runtime s x.guest) f n c → IsTypedConfig x.program c }
    // From any guest of its types.
    ensures kept { (p : Program) (l : Limits) (pages : ℕ) → IsValid pages p.code → p.hosts ≡ links p.code.imports
        → AreConstants p.code → (s : H.State) (g : Guest) (f n : ℕ) (c : State H.State) → IsTypedGuest p.code g
        → IsTrue (is_method (func_at p f)) → Reaches (rules_of H.meaning p l) (runtime s g) f n c → IsTypedConfig p c }
    // So `br_if`, `br_table`, `call_indirect`, `select` and `if` find a number of the type i32 on top.
    ensures raw { (p : Program) (c : State H.State) → IsTypedConfig p c → IsTrue (takes_raw (code_at c.seq))
        → HasI32 (values_at c.seq) }
    // What is reached is on the way of the run.
    ensures run { (p : Program) (l : Limits) (s : H.State) (g : Guest) (f n k : ℕ) (c : State H.State)
        → Reaches (rules_of H.meaning p l) (runtime s g) f n c
        → run_by (rules_of H.meaning p l) (runtime s g) f (n + k) ≡ runs (rules_of H.meaning p l) k c }
    // As long as the host's answers are of their types, a run that isn't over in so many steps is where they reach. The
    // premise is asked of a call that stands next even where the gas doesn't suffice for it.
    ensures each { (p : Program) (l : Limits) (s : H.State) (g : Guest) (f n : ℕ)
        → ((k : ℕ) (c : State H.State) → Reaches (rules_of H.meaning p l) (runtime s g) f k c
        → AnswersNext (rules_of H.meaning p l) (paid (rules_of H.meaning p l) c.store) c.locals c.seq)
        → run_by (rules_of H.meaning p l) (runtime s g) f n ≡ Unfinished
        → (c : State H.State) × Reaches (rules_of H.meaning p l) (runtime s g) f n c }
{}
