//! The bodies of a module's functions.

ghost use Rattle.std.specs.Prelude.{◌≡◌, ℕ, Ok, length, IfOk};
ghost use Rattle.nr_wasmvalid.specs.Parts.{parts_outcome, imported_type, imported_types, func_indices};
ghost use Rattle.nr_wasmvalid.specs.Verdict.{FuncJudges, FuncsJudge};

use crate::demand::number;
use crate::fault::ValidFault;
use crate::locals::LocalTypes;
use crate::plain::Scope;
use crate::stacks::Stacks;
use crate::typing::check_typing;
use nr_wasmtypes::{FuncBody, FuncType, Import, ImportKind, Module};
use std::alloc::{AllocError, Global};

/// The number of an imported function's type.
fn imported_type(kind: ImportKind) -> Option<u32>
    ensures { result ≡ imported_type kind }
{
    match kind {
        ImportKind::Func(number) => Some(number),
        _ => None,
    }
}

/// The number of each imported function's type.
#[tactic(auto, using(crate::proofs::OnImports::one_more, crate::proofs::OnImports::no_more))]
pub(crate) fn imported_types(alloc: Global, imports: &[Import]) -> Result<Vec<u32>, AllocError>
    ensures { IfOk result (λ v. v.items ≡ imported_types imports.now) }
{
    let mut types = Vec::new(alloc);
    for import in imports {
        if let Some(number) = imported_type(import.kind) {
            types.push(number)?;
        }
    }
    Ok(types)
}

/// The body of the function with this number.
fn check_function(
    stacks: &mut Stacks,
    module: &Module,
    funcs: &[u32],
    func: usize,
    sig: &FuncType,
    body: &FuncBody,
) -> Result<(), ValidFault>
    requires { funcs.now ≡ func_indices module.now }
    ensures { FuncJudges module.now func sig.now body.now result }
{
    let func = number(func)?;
    let locals = LocalTypes::new(sig.params.inner(), body.locals());
    let scope = Scope {
        module,
        funcs,
        locals,
        result: sig.result,
    };
    match check_typing(&scope, stacks, body.code_vec()) {
        Ok(()) => Ok(()),
        Err(fault) => Err(fault.of(func)),
    }
}

/// The bodies of all functions, the first of which has this number.
pub(crate) fn check_functions(
    alloc: Global,
    module: &Module,
    funcs: &[u32],
    first: usize,
) -> Result<(), ValidFault>
    requires funcs { funcs.now ≡ func_indices module.now }
    requires first { first ≡ length (imported_types module.now.imports) }
    requires parts { (pages : ℕ) × (parts_outcome pages module.now ≡ Ok tt) }
    ensures { FuncsJudge module.now first module.now.funcs module.now.bodies result }
{
    let types = module.types.inner();
    let numbers = module.funcs.inner();
    let bodies = module.bodies.inner();
    let mut stacks = Stacks::new(alloc, None);
    for index in 0..numbers.len() {
        let number = numbers[index] as usize;
        let sig = &types[number];
        let body = &bodies[index];
        check_function(&mut stacks, module, funcs, first + index, sig, body)?;
    }
    Ok(())
}
