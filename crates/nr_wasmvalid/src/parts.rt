//! The parts of a module, apart from its functions' bodies.

ghost use Rattle.std.specs.Prelude.{◌≡◌, IfOk};
ghost use Rattle.nr_bytes.specs.Answers.{Gives};
ghost use Rattle.nr_wasmvalid.specs.Parts.{outcome, each, parts_outcome, func_indices, import_asks, func_asks};
ghost use Rattle.nr_wasmvalid.specs.Parts.{table_asks, memory_asks, global_asks, export_asks, element_asks};
ghost use Rattle.nr_wasmvalid.specs.Parts.{segment_asks, count_asks};
ghost use Rattle.nr_wasmvalid.specs.declared.fault.ValidFault.TheVariants.{Memory};

use crate::demand::exists;
use crate::entries::{
    check_element, check_export, check_func, check_global, check_import, check_memory,
    check_segment, check_table,
};
use crate::fault::ValidFault;
use nr_bytes::Blob;
use nr_wasmtypes::{Export, Module};
use std::alloc::{AllocError, Global};
use std::collections::BTreeSet;

fn check_imports(module: &Module) -> Result<(), ValidFault>
    ensures { Gives Memory result (outcome (each (import_asks module.now.types) 0 module.now.imports)) }
{
    let imports = module.imports.inner();
    for index in 0..imports.len() {
        check_import(module.types.inner(), index, &imports[index])?;
    }
    Ok(())
}

fn check_funcs(module: &Module) -> Result<(), ValidFault>
    ensures { Gives Memory result (outcome (each (func_asks module.now.types) 0 module.now.funcs)) }
{
    let funcs = module.funcs.inner();
    for index in 0..funcs.len() {
        check_func(module.types.inner(), index, funcs[index])?;
    }
    Ok(())
}

fn check_tables(module: &Module) -> Result<(), ValidFault>
    ensures { Gives Memory result (outcome (each (table_asks) 0 module.now.tables)) }
{
    let tables = module.tables.inner();
    for index in 0..tables.len() {
        check_table(index, &tables[index])?;
    }
    Ok(())
}

fn check_memories(module: &Module, pages: u64) -> Result<(), ValidFault>
    ensures { Gives Memory result (outcome (each (memory_asks pages) 0 module.now.memories)) }
{
    let memories = module.memories.inner();
    for index in 0..memories.len() {
        check_memory(pages, index, &memories[index])?;
    }
    Ok(())
}

fn check_globals(module: &Module) -> Result<(), ValidFault>
    ensures { Gives Memory result (outcome (each (global_asks) 0 module.now.globals)) }
{
    let globals = module.globals.inner();
    for index in 0..globals.len() {
        check_global(index, &globals[index])?;
    }
    Ok(())
}

fn check_exports(alloc: Global, module: &Module, funcs: &[u32]) -> Result<(), ValidFault>
    ensures { Gives Memory result (outcome (each (export_asks module.now funcs.now) 0 module.now.exports)) }
{
    let exports = module.exports.inner();
    let mut seen = BTreeSet::new(alloc);
    for index in 0..exports.len() {
        let export = &exports[index];
        let name = name_of(alloc, export)?;
        let fresh = seen.insert(name)?;
        check_export(module, funcs, index, export, fresh)?;
    }
    Ok(())
}

/// The bytes of an export's name.
fn name_of(alloc: Global, export: &Export) -> Result<Blob, AllocError>
    ensures { IfOk result (λ name. name ≡ export.now.name) }
{
    let bytes = Vec::from_slice(alloc, export.name.inner().as_bytes())?;
    Ok(Blob::of(bytes))
}

fn check_elements(module: &Module, funcs: &[u32]) -> Result<(), ValidFault>
    ensures { Gives Memory result (outcome (each (element_asks module.now funcs.now) 0 module.now.elements)) }
{
    let elements = module.elements.inner();
    for index in 0..elements.len() {
        check_element(module, funcs, index, &elements[index])?;
    }
    Ok(())
}

fn check_segments(module: &Module) -> Result<(), ValidFault>
    ensures { Gives Memory result (outcome (each (segment_asks module.now) 0 module.now.segments)) }
{
    let segments = module.segments.inner();
    for index in 0..segments.len() {
        check_segment(module, index, &segments[index])?;
    }
    Ok(())
}

/// Each function has a body, and each body a function.
fn check_counts(module: &Module) -> Result<(), ValidFault>
    ensures { Gives Memory result (outcome (count_asks module.now)) }
{
    let funcs = module.funcs.inner().len();
    let bodies = module.bodies.inner().len();
    exists(funcs.min(bodies), funcs == bodies)
}

/// All parts, in the order of their sections. The memory may have so many pages at the start.
#[tactic(auto, unfolding(crate::specs::Parts::parts_outcome))]
pub(crate) fn check_parts(
    alloc: Global,
    module: &Module,
    funcs: &[u32],
    pages: u64,
) -> Result<(), ValidFault>
    requires { funcs.now ≡ func_indices module.now }
    ensures { Gives Memory result (parts_outcome pages module.now) }
{
    check_imports(module)?;
    check_funcs(module)?;
    check_tables(module)?;
    check_memories(module, pages)?;
    check_globals(module)?;
    check_exports(alloc, module, funcs)?;
    check_elements(module, funcs)?;
    check_segments(module)?;
    check_counts(module)
}
