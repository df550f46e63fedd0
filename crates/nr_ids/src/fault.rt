//! Why bytes are no account id.

/// Why bytes are no account id, or why none could be made of them.
#[derive(Clone, Copy, Debug, PartialEq, Eq)]
pub enum IdFault {
    /// There are fewer than 2 bytes or more than 64.
    Length,
    /// The byte at place `at`, counted from 0, is the first that stands in no account id.
    Character { at: usize },
    /// The separator at place `at`, counted from 0, is the first that stands at an end or right
    /// behind another.
    Separator { at: usize },
    /// There was no memory for the id. The bytes are an account id.
    Memory,
}
