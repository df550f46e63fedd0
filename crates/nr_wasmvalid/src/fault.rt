//! The first breach of a module.

ghost use Rattle.std.specs.Prelude.{◌≡◌, ◌<◌};
ghost use Rattle.nr_wasmvalid.specs.Modules.{in_func};

use crate::refusal::BodyFault;
use std::alloc::{AllocError, AllocFailed};

/// The first breach of a module.
///
/// `func` is the number of a function, where imported functions come first, or `u32::MAX` outside of
/// functions' bodies. There `place` is the number of an entry in its list; in a body it is the number
/// of instructions whose opcodes stand before, without `else` and `end`.
#[derive(Clone, Copy, Debug, PartialEq, Eq)]
pub enum ValidFault {
    /// An operand, a result or a constant expression has another type.
    Types { func: u32, place: u32 },
    /// A type, function, table, memory, global or local isn't there, a name is exported twice, or a
    /// constant global is assigned.
    Index { func: u32, place: u32 },
    /// A branch goes out of more blocks than are open, or the labels of a table differ in type.
    Label { func: u32, place: u32 },
    /// A second table or memory, a size out of its bounds, or an alignment above the access.
    Limit { func: u32, place: u32 },
    /// What is imported is no function that the host has, or has another type.
    Import { func: u32, place: u32 },
    /// Memory ran out, or a list is longer than 2^32 - 1.
    Memory,
}

impl From<AllocError> for ValidFault {
    ghost use Rattle.std.specs.Prelude.{◌≡◌};
    ghost use Rattle.nr_wasmvalid.specs.declared.fault.ValidFault.TheVariants.{Memory};

    ghost from_gives = { λ _ e. e ≡ Memory };

    fn from(_: AllocError) -> ValidFault {
        ValidFault::Memory
    }
}

impl<T: Drop> From<AllocFailed<T>> for ValidFault {
    ghost use Rattle.std.specs.Prelude.{◌≡◌};
    ghost use Rattle.nr_wasmvalid.specs.declared.fault.ValidFault.TheVariants.{Memory};

    ghost from_gives = { λ _ e. e ≡ Memory };

    fn from(_fault: AllocFailed<T>) -> ValidFault {
        ValidFault::Memory
    }
}

impl BodyFault {
    /// The breach in a function.
    pub(crate) fn of(self, func: u32) -> ValidFault
        ensures { result ≡ in_func func self }
    {
        match self {
            BodyFault::Types { place } => ValidFault::Types { func, place },
            BodyFault::Index { place } => ValidFault::Index { func, place },
            BodyFault::Label { place } => ValidFault::Label { func, place },
            BodyFault::Limit { place } => ValidFault::Limit { func, place },
            BodyFault::Memory => ValidFault::Memory,
        }
    }
}
