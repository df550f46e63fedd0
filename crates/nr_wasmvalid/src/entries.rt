//! The entries of a module's lists.

ghost use Rattle.std.specs.Prelude.{◌≡◌, ◌&&◌, not, Some, take, codes};
ghost use Rattle.std.specs.List.{list_any, list_all};
ghost use Rattle.std.specs.Prelude.{is_some, slice_get};
ghost use Rattle.std.specs.Str.{bytes_eq};
ghost use Rattle.nr_bytes.specs.Answers.{Gives};
ghost use Rattle.nr_wasmtypes.specs.Host.{host_named, host_type};
ghost use Rattle.nr_wasmvalid.specs.Rules.{same_type};
ghost use Rattle.nr_wasmvalid.specs.Parts.{outcome, same_sig, has_sig, import_asks, func_asks, at_most, up_to};
ghost use Rattle.nr_wasmvalid.specs.Parts.{table_asks, memory_asks, global_asks, is_there, has_name, export_asks};
ghost use Rattle.nr_wasmvalid.specs.Parts.{offset_asks, element_asks, segment_asks};
ghost use Rattle.nr_wasmvalid.specs.declared.fault.ValidFault.TheVariants.{Memory};

use crate::demand::{exists, fits, is_offered, within_limits};
use crate::fault::ValidFault;
use crate::plain::same_types;
use nr_wasmtypes::{
    ConstExpr, Element, Export, ExportKind, FuncType, Global, HostFn, Import, ImportKind, Limits,
    Module, Segment, ValType,
};

/// A table has at most so many entries at the start.
const TABLE_ENTRIES: u32 = 100_000;

/// A memory has at most so many pages.
const PAGES: u32 = 65_536;

/// All of these types are that one.
fn are_all(kinds: &[ValType], kind: ValType) -> bool
    ensures { result ≡ list_all (λ k. same_type k kind) kinds.now }
{
    for one in kinds {
        if *one != kind {
            return false;
        }
    }
    true
}

/// The function of the host has this type.
#[tactic(auto, using(crate::proofs::OnSigs::other_length))]
fn has_type(function: HostFn, sig: &FuncType) -> bool
    ensures { result ≡ same_sig sig.now (host_type function) }
{
    let params = sig.params.inner();
    if params.len() != function.params() {
        return false;
    }
    are_all(params, function.param()) && same_types(sig.result, function.result())
}

/// The import is a function of the host, with its type.
fn is_host_function(import: &Import, sig: &FuncType) -> bool
    ensures { let function = host_named import.now.name in
        result ≡ (bytes_eq import.now.module (codes "env") && has_sig function (Some sig.now)) }
{
    if import.module.inner() != "env" {
        return false;
    }
    match HostFn::of_name(import.name.inner().as_bytes()) {
        None => false,
        Some(function) => has_type(function, sig),
    }
}

/// An import.
pub(crate) fn check_import(
    types: &[FuncType],
    index: usize,
    import: &Import,
) -> Result<(), ValidFault>
    ensures { Gives Memory result (outcome (import_asks types.now index import.now)) }
{
    let ImportKind::Func(number) = import.kind else {
        return is_offered(index, false);
    };
    let Some(sig) = types.get(number as usize) else {
        return exists(index, false);
    };
    is_offered(index, is_host_function(import, sig))
}

/// The type of a function.
pub(crate) fn check_func(types: &[FuncType], index: usize, number: u32) -> Result<(), ValidFault>
    ensures { Gives Memory result (outcome (func_asks types.now index number)) }
{
    exists(index, (number as usize) < types.len())
}

fn at_most(least: u32, most: Option<u32>) -> bool
    ensures { result ≡ at_most least most }
{
    match most {
        None => true,
        Some(most) => least <= most,
    }
}

fn up_to(most: Option<u32>, bound: u32) -> bool
    ensures { result ≡ up_to most bound }
{
    match most {
        None => true,
        Some(most) => most <= bound,
    }
}

/// A table.
pub(crate) fn check_table(index: usize, limits: &Limits) -> Result<(), ValidFault>
    ensures { Gives Memory result (outcome (table_asks index limits.now)) }
{
    within_limits(
        index,
        index == 0 && at_most(limits.least, limits.most) && limits.least <= TABLE_ENTRIES,
    )
}

/// A memory.
pub(crate) fn check_memory(pages: u64, index: usize, limits: &Limits) -> Result<(), ValidFault>
    ensures { Gives Memory result (outcome (memory_asks pages index limits.now)) }
{
    within_limits(
        index,
        index == 0
            && at_most(limits.least, limits.most)
            && u64::from(limits.least) <= pages
            && up_to(limits.most, PAGES),
    )
}

/// A global.
pub(crate) fn check_global(index: usize, global: &Global) -> Result<(), ValidFault>
    ensures { Gives Memory result (outcome (global_asks index global.now)) }
{
    match global.init {
        ConstExpr::I32(_) => fits(index, global.kind == ValType::I32),
        ConstExpr::I64(_) => fits(index, global.kind == ValType::I64),
        ConstExpr::Get(_) => exists(index, false),
    }
}

fn is_there(module: &Module, funcs: &[u32], kind: ExportKind, index: u32) -> bool
    ensures { result ≡ is_there module.now funcs.now kind index }
{
    let count = match kind {
        ExportKind::Func => funcs.len(),
        ExportKind::Table => module.tables.inner().len(),
        ExportKind::Memory => module.memories.inner().len(),
        ExportKind::Global => module.globals.inner().len(),
    };
    (index as usize) < count
}

/// An export, whose name no export before it has, or one has.
pub(crate) fn check_export(
    module: &Module,
    funcs: &[u32],
    index: usize,
    export: &Export,
    fresh: bool,
) -> Result<(), ValidFault>
    requires { fresh ≡ not (list_any (has_name export.now.name) (take index module.now.exports)) }
    ensures { Gives Memory result (outcome (export_asks module.now funcs.now index export.now)) }
{
    exists(index, is_there(module, funcs, export.kind, export.index))?;
    exists(index, fresh)
}

/// The offset of an element or a segment.
fn check_offset(globals: &[Global], index: usize, offset: ConstExpr) -> Result<(), ValidFault>
    ensures { Gives Memory result (outcome (offset_asks globals.now index offset)) }
{
    match offset {
        ConstExpr::I32(_) => Ok(()),
        ConstExpr::I64(_) => fits(index, false),
        ConstExpr::Get(number) => match globals.get(number as usize) {
            None => exists(index, false),
            Some(global) => fits(index, global.kind == ValType::I32 && !global.mutable),
        },
    }
}

fn is_function(funcs: &[u32], func: u32) -> bool
    ensures { result ≡ is_some (slice_get funcs.now func) }
{
    (func as usize) < funcs.len()
}

/// Each of these functions is there.
fn are_there(funcs: &[u32], wanted: &[u32]) -> bool
    ensures { result ≡ list_all (λ f. is_some (slice_get funcs.now f)) wanted.now }
{
    for func in wanted {
        if !is_function(funcs, *func) {
            return false;
        }
    }
    true
}

/// An element.
pub(crate) fn check_element(
    module: &Module,
    funcs: &[u32],
    index: usize,
    element: &Element,
) -> Result<(), ValidFault>
    ensures { Gives Memory result (outcome (element_asks module.now funcs.now index element.now)) }
{
    check_offset(module.globals.inner(), index, element.offset)?;
    let has_table = (element.table as usize) < module.tables.inner().len();
    exists(index, has_table)?;
    exists(index, are_there(funcs, element.funcs.inner()))
}

/// A segment of data.
pub(crate) fn check_segment(
    module: &Module,
    index: usize,
    segment: &Segment,
) -> Result<(), ValidFault>
    ensures { Gives Memory result (outcome (segment_asks module.now index segment.now)) }
{
    check_offset(module.globals.inner(), index, segment.offset)?;
    let has_memory = (segment.memory as usize) < module.memories.inner().len();
    exists(index, has_memory)
}
