//! Valid modules.

ghost use Rattle.std.specs.Prelude.{◌≡◌, ℕ, List, [], Ok, Err};
ghost use Rattle.nr_bytes.specs.Answers.{Gives};
ghost use Rattle.nr_config.specs.Config.{max_pages};
ghost use Rattle.nr_wasmtypes.specs.Code.{Code};
ghost use Rattle.nr_wasmtypes.specs.declared.instr.ValType.{ValType};
ghost use Rattle.nr_wasmvalid.specs.Rules.{Context};
ghost use Rattle.nr_wasmvalid.specs.Running.{Open, NeverStuck, GoesOn};
ghost use Rattle.nr_wasmvalid.specs.Typing.{IsTyped};
ghost use Rattle.nr_wasmvalid.specs.Modules.{IsValid, IsFirstBreach};
ghost use Rattle.nr_wasmvalid.specs.Verdict.{ModuleJudges, Validates};
ghost use Rattle.nr_wasmvalid.specs.declared.fault.ValidFault.{ValidFault as Fault};
ghost use Rattle.nr_wasmvalid.specs.declared.fault.ValidFault.TheVariants.{Memory};

use crate::fault::ValidFault;
use crate::functions::{check_functions, imported_types};
use crate::parts::check_parts;
use nr_config::Config;
use nr_config::entries::MAX_PAGES;
use nr_wasmtypes::Module;
use std::alloc::Global;
use std::marker::Model;

/// What typing gives a machine.
pub fn running_laws()
    // It begins with the body, no open block and no operand.
    ensures begins { (c : Context) (code : Code) → IsTyped c code → GoesOn c [] code [] }
    // From there on it never meets a missing operand, one of another type, or a label that isn't there.
    ensures goes_on { (c : Context) (bs : List Open) (ts : List ValType) → NeverStuck c bs ts }
{}

/// A module that was validated. Contracts see the module.
#[derive(Debug, Drop)]
pub struct Valid {
    module: Module,
}

impl Model for Valid {
    ghost use Rattle.std.specs.Prelude.{ℕ};
    ghost use Rattle.nr_wasmtypes.specs.declared.module.Module.{Module as Whole};
    ghost use Rattle.nr_wasmvalid.specs.Modules.{IsValid};
    ghost use Rattle.nr_wasmtypes.specs.contracts.module.Module as module_type;

    ghost Value = { Whole };

    ghost coded = { module_type.the_row.coded };

    ghost view = { λ v. v.module };

    ghost invariant = { λ v. (pages : ℕ) × IsValid pages v.module };
}

impl Valid {
    /// Lends the module.
    pub fn module(&self) -> &Module
        ensures value { result.now ≡ self.now }
        ensures valid { (pages : ℕ) × IsValid pages self.now }
    {
        &self.module
    }

    /// Gives the module back.
    pub fn into_module(self) -> Module
        ensures value { result ≡ self }
        ensures valid { (pages : ℕ) × IsValid pages self }
    {
        self.module
    }
}

/// Checks a module whose memory has at most so many pages at the start.
#[tactic(auto, using(crate::proofs::Whole::judges, crate::proofs::Whole::parts_stop))]
fn check_module(alloc: Global, module: &Module, pages: u64) -> Result<(), ValidFault>
    ensures { ModuleJudges pages module.now result }
{
    let mut funcs = imported_types(alloc, module.imports.inner())?;
    let imported = funcs.len();
    funcs.extend_from_slice(module.funcs.inner())?;
    check_parts(alloc, module, &funcs, pages)?;
    check_functions(alloc, module, &funcs, imported)
}

/// Validates a module by the typing rules of WebAssembly, for functions of the host alone, one table
/// and one memory, whose least size is at most `max_pages` of the configuration.
///
/// # Errors
///
/// The first breach: of imports, types of functions, tables, memories, globals, exports, elements
/// and segments in this order, and then of the bodies, each by its instructions. `Memory`.
#[tactic(auto, using(crate::proofs::Whole::gives_valid, crate::proofs::Whole::gives_breach))]
pub fn validate(alloc: Global, module: Module, config: &Config) -> Result<Valid, ValidFault>
    // What passes is valid, and any other answer is the first breach.
    ensures verdict { Validates (max_pages config.now) «module» result }
    // What is valid passes.
    ensures valid { IsValid (max_pages config.now) «module» → Gives Memory result (Ok «module») }
    // There is no other first breach.
    ensures breach { (e : Fault) → IsFirstBreach (max_pages config.now) «module» e → Gives Memory result (Err e) }
{
    check_module(alloc, &module, config.entry(MAX_PAGES))?;
    Ok(Valid { module })
}
