//! The words that a program was called with.

use std::alloc::Global;
use std::io;
use std::rt::Env;

/// The words behind the program's own name.
///
/// # Errors
///
/// Of the kind `OutOfMemory` where memory ran out, and of another one where a word isn't UTF-8.
pub fn words_of<R: Env + AllocGlobal>(rt: &R, alloc: Global) -> io::Result<Vec<String>> {
    let mut words = Vec::new(alloc);
    for word in std::env::args(rt)?.skip(1) {
        words.push(word)?;
    }
    Ok(words)
}
