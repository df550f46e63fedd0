//! Why a command stops before it writes.

use crate::status::Status;
use nr_shell::Stop;

/// Why a command stops before it writes, and the file that it was to load last.
#[derive(Debug)]
pub struct Halt<'a> {
    /// Why it stops.
    pub stop: Stop<Status>,
    /// The name of the file.
    pub file: &'a str,
}
