//! Why a text is no node's.

ghost use Rattle.std.specs.Prelude.{◌≡◌};
ghost use Rattle.nr_triedef.specs.Reading.{node_fault};

use nr_bytes::BytesFault;
use thiserror::Error;

/// Why no node could be read from a text.
#[derive(Clone, Copy, Debug, PartialEq, Eq, Error)]
pub enum NodeFault {
    /// The text is no node's. `at` is the first byte of the first field that can't be read, counted
    /// in bytes from 0.
    #[error("the field at {at} is none of a node's")]
    BadNode { at: usize },
    /// Memory ran out.
    #[error("memory ran out")]
    Memory,
}

impl From<BytesFault> for NodeFault {
    ghost from_gives = { λ f e. e ≡ node_fault f };

    fn from(fault: BytesFault) -> NodeFault {
        match fault {
            BytesFault::Short { at } => NodeFault::BadNode { at },
            BytesFault::BadByte { at, byte: _ } => NodeFault::BadNode { at },
            BytesFault::BadUtf8 { at } => NodeFault::BadNode { at },
            BytesFault::Memory => NodeFault::Memory,
        }
    }
}
