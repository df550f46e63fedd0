//! Methods: functions with code of a module that are exported, and take and leave nothing.

ghost use Rattle.std.specs.Prelude.{◌≡◌, is_some, length};
ghost use Rattle.nr_wasmexec.specs.Functions.{links, link_as, func_at, own_func};
ghost use Rattle.nr_wasmexec.specs.Making.{is_method, method_as, method_of, program_of};
ghost use Rattle.nr_wasmtypes.specs.Host.{host_named};

use nr_wasmexec::{export_named, takes_and_leaves_nothing};
use nr_wasmtypes::{Export, ExportKind, HostFn, Import, ImportKind, Module};

fn is_link(import: &Import) -> bool
    ensures { result ≡ is_some (link_as (host_named import.now.name) import.now.kind) }
{
    match import.kind {
        ImportKind::Func(_) => HostFn::of_name(import.name.inner().as_bytes()).is_some(),
        _ => false,
    }
}

/// How many functions of the host are imported.
#[tactic(auto, using(crate::proofs::Counting::one_more, crate::proofs::Counting::no_more))]
fn host_count(imports: &[Import]) -> usize
    ensures { result ≡ length (links imports.now) }
{
    let mut count = 0;
    for import in imports {
        if is_link(import) {
            count += 1;
        }
    }
    count
}

/// Whether the module's own function with this number is a method.
fn is_own_method(code: &Module, k: usize) -> bool
    ensures { result ≡ is_method (own_func code.now k) }
{
    let Some(t) = code.funcs.inner().get(k) else {
        return false;
    };
    let Some(sig) = code.types.inner().get(*t as usize) else {
        return false;
    };
    k < code.bodies.inner().len() && takes_and_leaves_nothing(sig)
}

fn is_method(code: &Module, f: usize) -> bool
    ensures { result ≡ is_method (func_at (program_of code.now) f) }
{
    let count = host_count(code.imports.inner());
    f >= count && is_own_method(code, f - count)
}

fn is_method_export(code: &Module, export: &Export) -> bool
    ensures { result ≡ is_some (method_as (program_of code.now) export.now.kind export.now.index) }
{
    match export.kind {
        ExportKind::Func => is_method(code, export.index as usize),
        _ => false,
    }
}

/// Whether a method is exported by this name.
pub(crate) fn has_method(code: &Module, name: &[u8]) -> bool
    ensures { result ≡ is_some (method_of (program_of code.now) name.now) }
{
    match export_named(code.exports.inner(), name) {
        Some(export) => is_method_export(code, export),
        None => false,
    }
}
