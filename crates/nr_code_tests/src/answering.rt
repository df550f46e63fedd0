//! What near_module answers to words over files in memory.

use nr_bytes::{MemoryShelf, MemorySink};
use nr_module::{Status, check_module};
use std::alloc::Global;
use std::test::Fail;

/// Whether words over these files are answered so.
pub(crate) fn answers(
    alloc: Global,
    words: &[&str],
    files: &[(&str, &[u8])],
    status: Status,
    lines: &str,
) -> Result<bool, Fail> {
    let mut texts = Vec::new(alloc);
    for word in words {
        texts.push(String::from_str(alloc, word)?)?;
    }
    let mut held = Vec::new(alloc);
    for (name, bytes) in files {
        held.push((
            String::from_str(alloc, name)?,
            Vec::from_slice(alloc, bytes)?,
        ))?;
    }
    let mut shelf = MemoryShelf::new(held, Vec::new(alloc));
    let mut sink = MemorySink::new(alloc, 8, Vec::new(alloc), 1024)?;
    let ended = check_module(alloc, &texts, &mut shelf, &mut sink);
    Ok(ended == status && sink.bytes() == lines.as_bytes())
}
