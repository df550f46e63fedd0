//! Why an action wasn't done.

ghost use Rattle.std.specs.Prelude.{◌≡◌};
ghost use Rattle.nr_actions.specs.declared.fault.ActionFault.TheVariants.{Memory};

use std::alloc::AllocError;
use thiserror::Error;

/// Why an action wasn't done.
#[derive(Clone, Copy, Debug, PartialEq, Eq, Error)]
pub enum ActionFault {
    /// It failed: the number of the failure, and its part (0 where it has none).
    #[error("failure {kind}, part {part}")]
    Failed { kind: u32, part: u32 },
    /// There was no memory for it.
    #[error("memory ran out")]
    Memory,
}

impl From<AllocError> for ActionFault {
    ghost from_gives = { λ _ e. e ≡ Memory };

    fn from(_fault: AllocError) -> ActionFault {
        ActionFault::Memory
    }
}
