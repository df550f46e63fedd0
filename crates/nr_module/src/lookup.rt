//! Methods by name: functions of a module's own that are exported, and take and leave nothing.

ghost use Rattle.std.specs.Prelude.{◌≡◌, IfSome, IsTrue};
ghost use Rattle.nr_wasmexec.specs.Functions.{func_at};
ghost use Rattle.nr_wasmexec.specs.Making.{is_method as may_run, method_as, method_of, program_of};

use crate::listing::{imported_count, is_method};
use nr_wasmexec::export_named;
use nr_wasmtypes::{Export, ExportKind};
use nr_wasmvalid::Valid;

/// The function with this number may be run.
fn may_run(valid: &Valid, func: u32) -> bool
    ensures { result ≡ may_run (func_at (program_of valid.now) func) }
{
    let module = valid.module();
    is_method(module, imported_count(module), func as usize)
}

/// The function that an export names, where it may be run.
fn method_as(valid: &Valid, export: &Export) -> Option<u32>
    ensures { result ≡ method_as (program_of valid.now) export.now.kind export.now.index }
{
    match export.kind {
        ExportKind::Func if may_run(valid, export.index) => Some(export.index),
        _ => None,
    }
}

/// The function that is exported by this name, where it may be run.
pub(crate) fn method_named(valid: &Valid, name: &[u8]) -> Option<u32>
    ensures value { result ≡ method_of (program_of valid.now) name.now }
    ensures runs { IfSome result (λ f. IsTrue (may_run (func_at (program_of valid.now) f))) }
{
    match export_named(valid.module().exports.inner(), name) {
        Some(export) => method_as(valid, export),
        None => None,
    }
}
