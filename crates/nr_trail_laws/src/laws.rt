//! What holds of every trail.

ghost use Rattle.std.specs.Prelude.{◌≡◌, ℕ, Some};
ghost use Rattle.nr_trail_laws.specs.Placed.{StandsAt};
ghost use Rattle.nr_wasmexec.specs.Functions.{Coded, func_at};
ghost use Rattle.nr_wasmexec.specs.Machine.{rules_of, runtime};
ghost use Rattle.nr_trace.specs.Trail.{trail_by};
ghost use Rattle.nr_wasmexec.specs.declared.program.Limits.{Limits};
ghost use Rattle.nr_wasmexec.specs.declared.program.Program.{Program};
ghost use Rattle.nr_wasmmem.specs.declared.guest.Guest.{Guest};
ghost use Rattle.nr_wasmtypes.specs.Body.{Body};
ghost use Rattle.nr_wasmtypes.specs.declared.module.FuncType.{FuncType};

use nr_wasmmem::Host;

/// After any number of steps of a function's run the trail stands at code of its own function: the noted instruction,
/// which by the trail's definition is the one that the reduction has next, is the one that has the told number there,
/// with all that follows it in its sequence. It does nothing when it runs.
pub fn trail_law<H: Host>()
    ensures { (p : Program) (l : Limits) (s : H.State) (g : Guest) (f n : ℕ) (sig : FuncType) (body : Body)
        → func_at p f ≡ Some (Coded sig body) → StandsAt p (trail_by (rules_of H.meaning p l) (runtime s g) f n) }
{}
