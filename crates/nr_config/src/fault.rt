//! Why a configuration could not be read.

use thiserror::Error;

/// Why some bytes are no configuration. An entry is told by its number, from 1
/// to 75, and the first faulty one is told.
#[derive(Clone, Copy, Debug, PartialEq, Eq, Error)]
pub enum ConfigFault {
    /// The bytes are no JSON text, or its value is no object.
    #[error("no JSON object")]
    NotJson,
    /// The object has no member of the entry's name.
    #[error("entry {entry} is missing")]
    Missing { entry: u32 },
    /// The entry is no whole number from 0 to 2^64 - 1.
    #[error("entry {entry} is no whole number")]
    NotWhole { entry: u32 },
    /// The entry is below its least or above its greatest number. Of the numerator of the reward also
    /// where it is above the denominator, and nothing else is faulty.
    #[error("entry {entry} is out of its range")]
    OutOfRange { entry: u32 },
    /// Memory ran out.
    #[error("memory ran out")]
    Memory,
}
