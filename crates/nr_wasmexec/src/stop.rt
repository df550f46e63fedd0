//! Why runs stop.

use std::alloc::AllocError;

/// Why a step of a run comes to no other.
#[derive(Clone, Copy, Debug, PartialEq, Eq)]
pub enum Stop {
    Trap(u32),
    GasExceeded,
    HostFault(u32),
    /// No rule fits. Valid code never comes to it.
    Lost,
    Memory,
}

impl From<AllocError> for Stop {
    ghost use Rattle.std.specs.Prelude.{◌≡◌};
    ghost use Rattle.nr_wasmexec.specs.declared.stop.Stop.TheVariants.{Memory};

    ghost from_gives = { λ _ e. e ≡ Memory };

    fn from(_error: AllocError) -> Stop {
        Stop::Memory
    }
}

/// Why a run stops before its end.
#[derive(Clone, Copy, Debug, PartialEq, Eq)]
pub enum RunStop {
    /// 1 an instruction that is never to be reached, 2 bytes outside of memory, 3 a division by
    /// zero, 4 a quotient that its type can't hold, 5 a place outside of the table, 6 a place of the
    /// table that holds no function, 7 a function of another type, 8 more frames than allowed, or
    /// more operands and locals.
    Trap { kind: u32 },
    /// The gas that is left isn't enough.
    GasExceeded,
    /// A function of the host failed.
    HostFault { kind: u32 },
    Memory,
}
