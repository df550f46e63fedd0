//! Why a command stops before it writes.

/// Why a command stops before it writes.
#[derive(Clone, Copy, Debug, PartialEq, Eq)]
pub enum Stop<E> {
    /// A file could not be read.
    Unread,
    /// Memory ran out.
    Memory,
    /// It is refused.
    Refused(E),
}
