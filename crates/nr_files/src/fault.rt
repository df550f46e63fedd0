//! Why a file is refused, or that memory ran out.

use nr_bytes::Text;

/// Why a file is refused.
#[derive(Debug, Drop)]
pub(crate) enum Fault {
    /// This says why.
    Words(Text),
    /// Memory ran out.
    Memory,
}
