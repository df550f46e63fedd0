//! Why a proof could not be read.

ghost use Rattle.std.specs.Prelude.{◌≡◌};
ghost use Rattle.nr_outproof.specs.declared.fault.ProofFault.TheVariants.{Memory};

use std::alloc::{AllocError, AllocFailed};
use thiserror::Error;

/// Why bytes are no proof, or why none could be made of them.
#[derive(Clone, Copy, Debug, PartialEq, Eq, Error)]
pub enum ProofFault {
    /// The line of this number, from 1, is the first that isn't of the form, or that is missing.
    #[error("line {line} isn't of the form")]
    Form { line: u64 },
    /// Memory ran out.
    #[error("memory ran out")]
    Memory,
}

impl From<AllocError> for ProofFault {
    ghost from_gives = { λ _ e. e ≡ Memory };

    fn from(_fault: AllocError) -> ProofFault {
        ProofFault::Memory
    }
}

impl<T: Drop> From<AllocFailed<T>> for ProofFault {
    ghost from_gives = { λ _ e. e ≡ Memory };

    fn from(_fault: AllocFailed<T>) -> ProofFault {
        ProofFault::Memory
    }
}
