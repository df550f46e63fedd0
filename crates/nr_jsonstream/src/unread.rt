//! Why a text isn't read entry by entry.

ghost use Rattle.std.specs.Prelude.{◌≡◌};
ghost use Rattle.nr_jsonstream.specs.declared.unread.Unread.TheVariants.{Memory, Other};

use json::Invalid;
use std::alloc::{AllocError, AllocFailed};

/// Why a text isn't read entry by entry.
#[derive(Clone, Copy, Debug, Drop, PartialEq, Eq)]
pub enum Unread {
    /// It is no JSON, its value or one of several members of a name is faulty, or it has a number that is no whole one
    /// from 0 to 2^64 - 1.
    Other,
    /// Memory ran out.
    Memory,
}

impl From<Invalid> for Unread {
    ghost from_gives = { λ _ e. e ≡ Other };

    fn from(_fault: Invalid) -> Unread {
        Unread::Other
    }
}

impl From<AllocError> for Unread {
    ghost from_gives = { λ _ e. e ≡ Memory };

    fn from(_fault: AllocError) -> Unread {
        Unread::Memory
    }
}

impl<T: Drop> From<AllocFailed<T>> for Unread {
    ghost from_gives = { λ _ e. e ≡ Memory };

    fn from(_fault: AllocFailed<T>) -> Unread {
        Unread::Memory
    }
}
