//! What is wrong with a register or a range.

ghost use Rattle.std.specs.Prelude.{◌≡◌};
ghost use Rattle.nr_guest.specs.declared.fault.GuestFault.TheVariants.{Memory};

use std::alloc::AllocError;

/// What is wrong with a register or a range.
#[derive(Clone, Copy, Debug, PartialEq, Eq)]
pub enum GuestFault {
    /// There is no such register.
    BadRegister,
    /// A range isn't inside the guest's memory.
    OutOfBounds,
    /// A write would pass a limit of the registers.
    RegisterLimit,
    /// There was no memory for it.
    Memory,
}

impl From<AllocError> for GuestFault {
    ghost from_gives = { λ _ e. e ≡ Memory };

    fn from(_fault: AllocError) -> GuestFault {
        GuestFault::Memory
    }
}
