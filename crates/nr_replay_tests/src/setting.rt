//! Words, files and outputs in memory.

use nr_bytes::{MemoryShelf, MemorySink};
use nr_files::Status;
use nr_jsonrun::serve_words;
use std::alloc::{AllocError, Global};
use std::test::Fail;

/// How a command ended: its exit status, the line that tells it, what the sink took, and the shelf.
#[derive(Drop)]
pub(crate) struct Ended {
    pub(crate) status: Status,
    sink: MemorySink,
    shelf: MemoryShelf,
}

impl Ended {
    /// What was written.
    pub(crate) fn written(&self) -> &[u8] {
        self.sink.bytes()
    }

    /// Whether these names alone were asked for, as the shelf's text ends.
    pub(crate) fn asked(&self, alloc: Global, names: &str) -> Result<bool, Fail> {
        let shelf = &self.shelf;
        let text = format!(in alloc; "{shelf:?}")?;
        let end = format!(in alloc; "asked: {names} }}")?;
        Ok(text.as_bytes().strip_suffix(end.as_bytes()).is_some())
    }

    /// Whether it ended with this exit status and this line, and nothing was written.
    pub(crate) fn refused(&self, alloc: Global, number: u8, line: &str) -> Result<bool, Fail> {
        let status = &self.status;
        let told = format!(in alloc; "{status}")?;
        Ok(status.exit_status() == number && told.as_str() == line && self.written().is_empty())
    }
}

/// Words as texts of their own.
pub(crate) fn words_of(alloc: Global, words: &[&str]) -> Result<Vec<String>, AllocError> {
    let mut texts = Vec::new(alloc);
    for word in words {
        texts.push(String::from_str(alloc, word)?)?;
    }
    Ok(texts)
}

/// A shelf with these files, where no call fails.
pub(crate) fn shelf_of(alloc: Global, files: &[(&str, &[u8])]) -> Result<MemoryShelf, AllocError> {
    let mut held = Vec::new(alloc);
    for (name, bytes) in files {
        held.push((
            String::from_str(alloc, name)?,
            Vec::from_slice(alloc, bytes)?,
        ))?;
    }
    Ok(MemoryShelf::new(held, Vec::new(alloc)))
}

/// How a command of `near_files` over files ends.
pub(crate) fn ended_by(
    alloc: Global,
    words: &[&str],
    files: &[(&str, &[u8])],
) -> Result<Ended, Fail> {
    let words = words_of(alloc, words)?;
    let mut shelf = shelf_of(alloc, files)?;
    let mut sink = MemorySink::new(alloc, 100, Vec::new(alloc), 16_384)?;
    let status = serve_words(alloc, &words, &mut shelf, &mut sink);
    Ok(Ended {
        status,
        sink,
        shelf,
    })
}
