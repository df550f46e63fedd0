//! Why bytes are no module.

ghost use Rattle.std.specs.Prelude.{◌≡◌};
ghost use Rattle.nr_wasmbin.specs.declared.fault.DecodeFault.TheVariants.{Memory};

use std::alloc::{AllocError, AllocFailed};
use thiserror::Error;

/// Why bytes are no module: the first field that can't be read. `at` is the place of that field's
/// first byte, counted from 0 at the front of the module.
#[derive(Clone, Copy, Debug, PartialEq, Eq, Error)]
pub enum DecodeFault {
    /// The field needs more bytes than its section, its body or the module has. A name or bytes
    /// begin at their count; the contents of a section or of a body are one field.
    #[error("the field at {at} passes the end")]
    Short { at: usize },
    /// A number in LEB128 has too many bytes, or wrong unused bits in its last one.
    #[error("the number at {at} is no LEB128 of its size")]
    Leb { at: usize },
    /// A wrong magic or version, a section with a wrong id or at a wrong place, a byte behind what
    /// fills a section or a body, or another number of bodies than of functions.
    #[error("the section at {at} is wrong")]
    Section { at: usize },
    /// A byte that is no opcode, type, kind or flag that may stand at its place.
    #[error("the byte at {at} may not stand there")]
    Opcode { at: usize },
    /// The type of a float, or an opcode on floats.
    #[error("the byte at {at} is of floats")]
    Float { at: usize },
    /// The bytes of a name are not UTF-8.
    #[error("the name at {at} is not UTF-8")]
    Utf8 { at: usize },
    /// The module has more bytes than `max_code` (at 0), a list has more than 50,000 items, a body
    /// more than 50,000 locals, a type more than one result, or 257 blocks stand in one another.
    #[error("too many at {at}")]
    TooMany { at: usize },
    /// Memory ran out.
    #[error("memory ran out")]
    Memory,
}

impl From<AllocError> for DecodeFault {
    ghost from_gives = { λ _ e. e ≡ Memory };

    fn from(_fault: AllocError) -> DecodeFault {
        DecodeFault::Memory
    }
}

impl<T: Drop> From<AllocFailed<T>> for DecodeFault {
    ghost from_gives = { λ _ e. e ≡ Memory };

    fn from(_fault: AllocFailed<T>) -> DecodeFault {
        DecodeFault::Memory
    }
}
