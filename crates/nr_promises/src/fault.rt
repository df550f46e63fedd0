//! Why a call on promises was refused.

ghost use Rattle.std.specs.Prelude.{◌≡◌};
ghost use Rattle.nr_promises.specs.declared.fault.PromiseFault.TheVariants.{Memory};

use std::alloc::AllocError;

/// Why a call on promises was refused.
#[derive(Clone, Copy, Debug, PartialEq, Eq)]
pub enum PromiseFault {
    /// The index isn't below the number of promises.
    BadIndex,
    /// The index is that of a joint promise, which has no receipt of its own.
    Joint,
    /// As many promises stand as one call may make.
    TooMany,
    /// The receipt has as many actions as one may have.
    TooManyActions,
    /// The promises that would be joined hold more than 128 receipts.
    TooManyInputs,
    /// There was no memory for it.
    Memory,
}

impl From<AllocError> for PromiseFault {
    ghost from_gives = { λ _ e. e ≡ Memory };

    fn from(_fault: AllocError) -> PromiseFault {
        PromiseFault::Memory
    }
}
