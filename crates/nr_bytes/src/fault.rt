//! Why a field was not read.

use thiserror::Error;

/// Why a field was not read. Each place counts bytes from 0, from the front of what the reader was made on.
#[derive(Clone, Copy, Debug, PartialEq, Eq, Error)]
pub enum BytesFault {
    /// The field that begins at `at` needs more bytes than are left. A byte or text field begins at its count.
    #[error("the field at {at} passes the end")]
    Short { at: usize },
    /// The flag at `at` is above 1, or this byte stands behind the last field.
    #[error("the byte {byte} at {at} may not stand there")]
    BadByte { at: usize, byte: u8 },
    /// The text field that begins at `at` is whole, and its bytes are not UTF-8.
    #[error("the text at {at} is not UTF-8")]
    BadUtf8 { at: usize },
    /// Memory ran out.
    #[error("memory ran out")]
    Memory,
}
