//! The kinds of failure and their parts.

ghost use Rattle.std.specs.Prelude.{◌≡◌};
ghost use Rattle.nr_contract.specs.Preparing.{invalid};

use crate::refused::Refused;
use nr_wasmvalid::{ValidFault, valid_kind};

/// The code can't be decoded, isn't valid, or makes no machine.
pub(crate) const BAD_CODE: u32 = 13;
/// There is no such method.
pub(crate) const NO_METHOD: u32 = 14;
/// The code met a trap, whose number is the part.
pub(crate) const TRAPPED: u32 = 15;
/// A binding failed with a fault, whose number is the part.
pub(crate) const FAILED_BINDING: u32 = 16;
/// The gas didn't suffice.
pub(crate) const OUT_OF_GAS: u32 = 17;

/// An element or a segment doesn't fit.
pub(crate) const SEGMENT: u32 = 21;

/// The refusal of a module that isn't valid.
pub(crate) fn invalid(fault: ValidFault) -> Refused
    ensures { result ≡ invalid fault }
{
    match fault {
        ValidFault::Memory => Refused::Memory,
        _ => Refused::Failed {
            kind: BAD_CODE,
            part: valid_kind(fault),
        },
    }
}
