//! Why the machine of a call wasn't made.

/// Why the machine of a call wasn't made.
#[derive(Clone, Copy, Debug, PartialEq, Eq)]
pub(crate) enum Refused {
    /// The call fails.
    Failed { kind: u32, part: u32 },
    /// There was no memory for it.
    Memory,
}
