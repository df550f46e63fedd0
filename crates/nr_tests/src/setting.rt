//! Words, files and outputs for runs in memory.

use nr_bytes::{MemoryShelf, MemorySink};
use nr_top::{Status, serial};
use std::alloc::Global;
use std::test::Fail;

/// The room of a sink.
const ROOM: usize = 67_108_864;

/// How a run ended: its status, the names that it asked for, and what the sink took.
#[derive(Drop)]
pub(crate) struct Ended {
    pub(crate) status: Status,
    pub(crate) sink: MemorySink,
    shelf: MemoryShelf,
}

impl Ended {
    /// Whether these names alone were asked for, as the shelf's text ends.
    pub(crate) fn asked(&self, alloc: Global, names: &str) -> Result<bool, Fail> {
        let shelf = &self.shelf;
        let text = format!(in alloc; "{shelf:?}")?;
        let end = format!(in alloc; "asked: {names} }}")?;
        Ok(text.as_bytes().strip_suffix(end.as_bytes()).is_some())
    }

    /// Whether these names alone were asked for, and the sink took nothing.
    pub(crate) fn wrote_nothing(&self, alloc: Global, names: &str) -> Result<bool, Fail> {
        let asked = self.asked(alloc, names)?;
        Ok(asked && self.sink.bytes().is_empty())
    }
}

/// Words as texts of their own.
fn words_of(alloc: Global, words: &[&str]) -> Result<Vec<String>, Fail> {
    let mut texts = Vec::new(alloc);
    for word in words {
        texts.push(String::from_str(alloc, word)?)?;
    }
    Ok(texts)
}

/// A text put together of pieces.
pub(crate) fn text_of(alloc: Global, pieces: &[&str]) -> Result<String, Fail> {
    let mut text = String::new(alloc);
    for piece in pieces {
        text.push_str(piece)?;
    }
    Ok(text)
}

/// A genesis `G` and blocks `B`.
fn files_of(
    alloc: Global,
    genesis: Vec<u8>,
    blocks: Vec<u8>,
) -> Result<Vec<(String, Vec<u8>)>, Fail> {
    let mut files = Vec::new(alloc);
    files.push((String::from_str(alloc, "G")?, genesis))?;
    files.push((String::from_str(alloc, "B")?, blocks))?;
    Ok(files)
}

/// A shelf with a genesis `G` and blocks `B`, given in hexadecimal, and further files, that fails at some
/// calls.
pub(crate) fn shelf_of_all(
    alloc: Global,
    genesis: &str,
    blocks: &str,
    more: &[(&str, &[u8])],
    fail: &[u64],
) -> Result<MemoryShelf, Fail> {
    let genesis = hex::decode(alloc, genesis)?;
    let mut files = files_of(alloc, genesis, hex::decode(alloc, blocks)?)?;
    for (name, bytes) in more {
        files.push((
            String::from_str(alloc, name)?,
            Vec::from_slice(alloc, bytes)?,
        ))?;
    }
    Ok(MemoryShelf::new(files, Vec::from_slice(alloc, fail)?))
}

/// The same without further files.
pub(crate) fn shelf_of(
    alloc: Global,
    genesis: &str,
    blocks: &str,
    fail: &[u64],
) -> Result<MemoryShelf, Fail> {
    shelf_of_all(alloc, genesis, blocks, &[], fail)
}

/// The same with one further file, where no call fails.
pub(crate) fn shelf_with(
    alloc: Global,
    genesis: &str,
    blocks: &str,
    name: &str,
    bytes: &[u8],
) -> Result<MemoryShelf, Fail> {
    shelf_of_all(alloc, genesis, blocks, &[(name, bytes)], &[])
}

/// What words over a shelf end with, where some writes of ten bytes fail.
pub(crate) fn end_failing(
    alloc: Global,
    words: &[&str],
    shelf: MemoryShelf,
    fail: &[u64],
) -> Result<Ended, Fail> {
    let words = words_of(alloc, words)?;
    let mut shelf = shelf;
    let mut sink = MemorySink::new(alloc, 10, Vec::from_slice(alloc, fail)?, ROOM)?;
    let status = serial(alloc, &words, &mut shelf, &mut sink);
    Ok(Ended {
        status,
        sink,
        shelf,
    })
}

/// What words over a shelf end with.
pub(crate) fn end_of(alloc: Global, words: &[&str], shelf: MemoryShelf) -> Result<Ended, Fail> {
    end_failing(alloc, words, shelf, &[])
}

/// What `run free G B` ends with, for the bytes of both files.
pub(crate) fn run_files(alloc: Global, genesis: Vec<u8>, blocks: Vec<u8>) -> Result<Ended, Fail> {
    let files = files_of(alloc, genesis, blocks)?;
    let shelf = MemoryShelf::new(files, Vec::new(alloc));
    end_of(alloc, &["run", "free", "G", "B"], shelf)
}

/// What `run free G B` ends with, for both files in hexadecimal.
pub(crate) fn run(alloc: Global, genesis: &str, blocks: &str) -> Result<Ended, Fail> {
    let genesis = hex::decode(alloc, genesis)?;
    run_files(alloc, genesis, hex::decode(alloc, blocks)?)
}

/// What `run C G B` ends with, for the bytes of a configuration.
pub(crate) fn run_by(
    alloc: Global,
    config: &[u8],
    genesis: &str,
    blocks: &str,
) -> Result<Ended, Fail> {
    let shelf = shelf_with(alloc, genesis, blocks, "C", config)?;
    end_of(alloc, &["run", "C", "G", "B"], shelf)
}
