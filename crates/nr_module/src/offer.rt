//! What the host has of what a module imports.

ghost use Rattle.std.specs.Prelude.{◌≡◌, IfOk};
ghost use Rattle.nr_wasmtypes.specs.Host.{host_type};
ghost use Rattle.nr_wasmvalid.specs.Parts.{same_sig};
ghost use Rattle.nr_module.specs.Listing.{offer_of, offer_word};

use nr_bytes::List;
use nr_wasmtypes::{FuncType, HostFn, Import, ImportKind};
use std::alloc::{AllocError, Global};

/// Whether the host has what is imported, or why not.
#[derive(Clone, Copy, Debug, PartialEq, Eq)]
pub(crate) enum Offer {
    /// It has it: a function of `env`, of this name and of this type.
    Good,
    /// It has functions alone.
    Kind,
    /// It has `env` alone.
    Module,
    /// It has no function of this name.
    Name,
    /// Its function of this name has another type.
    Type,
}

fn host_type(alloc: Global, function: HostFn) -> Result<FuncType, AllocError>
    ensures { IfOk result (λ sig. sig ≡ host_type function) }
{
    let params = vec![in alloc; function.param(); function.params()]?;
    Ok(FuncType {
        params: List::of(params),
        result: function.result(),
    })
}

/// The function of the host has this type.
fn has_type(alloc: Global, function: HostFn, sig: &FuncType) -> Result<bool, AllocError>
    ensures { IfOk result (λ same. same ≡ same_sig sig.now (host_type function)) }
{
    let of_host = host_type(alloc, function)?;
    Ok(sig.is(&of_host))
}

/// What the host has of an import.
///
/// # Errors
///
/// Where memory runs out.
pub(crate) fn offer_of(
    alloc: Global,
    types: &[FuncType],
    import: &Import,
) -> Result<Offer, AllocError>
    ensures { IfOk result (λ offer. offer ≡ offer_of types.now import.now import.now.kind) }
{
    let ImportKind::Func(number) = import.kind else {
        return Ok(Offer::Kind);
    };
    if import.module.inner() != "env" {
        return Ok(Offer::Module);
    }
    let Some(function) = HostFn::of_name(import.name.inner().as_bytes()) else {
        return Ok(Offer::Name);
    };
    let Some(sig) = types.get(number as usize) else {
        return Ok(Offer::Type);
    };
    if has_type(alloc, function, sig)? {
        Ok(Offer::Good)
    } else {
        Ok(Offer::Type)
    }
}

/// The word for it.
pub(crate) fn offer_word(offer: Offer) -> &'static str
    ensures { result.now ≡ offer_word offer }
{
    match offer {
        Offer::Good => "ok",
        Offer::Kind => "kind",
        Offer::Module => "module",
        Offer::Name => "name",
        Offer::Type => "type",
    }
}
