//! What a guest has beside its code.

use crate::memory::Memory;
use nr_bytes::List;

/// What a guest has beside its code: its memory, the value of each global, and its table, where an entry is
/// the number of a function or none. A guest without a memory has one of no pages, which can't grow.
#[derive(Drop)]
pub struct Guest {
    pub memory: Memory,
    pub globals: List<u64>,
    pub table: List<Option<u32>>,
}
