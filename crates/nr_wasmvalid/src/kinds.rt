//! The number by which the kind of a breach is told, and its function and place.

ghost use Rattle.std.specs.Prelude.{◌≡◌};
ghost use Rattle.nr_wasmvalid.specs.Kinds.{valid_func, valid_kind, valid_place};

use crate::fault::ValidFault;

/// The number of a breach's kind, from 11 to 15: 0 where memory ran out.
pub fn valid_kind(fault: ValidFault) -> u32
    ensures { result ≡ valid_kind fault }
{
    match fault {
        ValidFault::Types { .. } => 11,
        ValidFault::Index { .. } => 12,
        ValidFault::Label { .. } => 13,
        ValidFault::Limit { .. } => 14,
        ValidFault::Import { .. } => 15,
        ValidFault::Memory => 0,
    }
}

/// The function in which a breach is, or `u32::MAX` outside of functions' bodies: 0 where memory ran out.
pub fn valid_func(fault: ValidFault) -> u32
    ensures { result ≡ valid_func fault }
{
    match fault {
        ValidFault::Types { func, .. } => func,
        ValidFault::Index { func, .. } => func,
        ValidFault::Label { func, .. } => func,
        ValidFault::Limit { func, .. } => func,
        ValidFault::Import { func, .. } => func,
        ValidFault::Memory => 0,
    }
}

/// The place of a breach, in its function's body or in a list of the module: 0 where memory ran out.
pub fn valid_place(fault: ValidFault) -> u32
    ensures { result ≡ valid_place fault }
{
    match fault {
        ValidFault::Types { place, .. } => place,
        ValidFault::Index { place, .. } => place,
        ValidFault::Label { place, .. } => place,
        ValidFault::Limit { place, .. } => place,
        ValidFault::Import { place, .. } => place,
        ValidFault::Memory => 0,
    }
}
