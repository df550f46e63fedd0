//! Exports by name, and the type that a method has.

ghost use Rattle.std.specs.Prelude.{◌≡◌, ◌&&◌, MatchOption, None, Some, find, is_some, length, nat_eq, not};
ghost use Rattle.std.specs.Str.{bytes_eq};

use nr_wasmtypes::{Export, FuncType};

fn is_named(export: &Export, name: &[u8]) -> bool
    ensures { result ≡ bytes_eq export.now.name name.now }
{
    export.name.inner().as_bytes() == name
}

/// The first export of this name; a valid module has one at most.
#[tactic(auto, using(crate::proofs::Named::found_here, crate::proofs::Named::found_later, crate::proofs::Named::found_none))]
pub fn export_named<'a>(exports: &'a [Export], name: &[u8]) -> Option<&'a Export>
    ensures { MatchOption result (find (λ e. bytes_eq e.name name.now) exports.now ≡ None)
        (λ e. find (λ e. bytes_eq e.name name.now) exports.now ≡ Some e.now) }
{
    for export in exports {
        if is_named(export, name) {
            return Some(export);
        }
    }
    None
}

/// Whether a function of this type takes and leaves nothing, as a method does.
pub fn takes_and_leaves_nothing(sig: &FuncType) -> bool
    ensures { result ≡ (nat_eq (length sig.now.params) 0 && not (is_some sig.now.result)) }
{
    sig.params.inner().is_empty() && sig.result.is_none()
}
