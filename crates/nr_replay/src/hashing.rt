//! The report of a chain as it is hashed while the shards run. Nothing is known of the order in which their reports
//! come, so the text that was hashed is kept, and is compared with the report's at the end.

ghost use Rattle.std.specs.Prelude.{◌≡◌, ◌++◌, IfSome};
ghost use Rattle.sha2.specs.Hashers.{Holds256};
ghost use Rattle.sha2.specs.Sha256.{sha256};

use nr_blocks::Block;
use nr_bytes::Blob;
use nr_ids::Hash32;
use nr_records::ChunkResult;
use nr_report::write_chunk;
use nr_settle::Watch;
use sha2::{Digest, Sha256};
use std::alloc::{AllocError, Global};
use std::marker::Model;
use std::sync::Mutex;
use std::thread;

/// How many chunks a shard hashes at most when it has sealed one.
const MOST_AT_ONCE: u32 = 4;

/// How often a cell is tried that another thread holds, which does so for a moment.
const MOST_TRIES: u32 = 1_000;

/// What is hashed. Contracts see its text.
#[derive(Drop)]
struct Front {
    hasher: Sha256,
    text: Vec<u8>,
    /// The place of the chunk behind it, by height and then shard.
    next: usize,
}

impl Model for Front {
    ghost use Rattle.std.specs.Prelude.{List, ℕ};
    ghost use Rattle.sha2.specs.Hashers.{Holds256};

    ghost Value = { List ℕ };

    ghost view = { λ f. f.text.items };

    ghost invariant = { λ f. Holds256 f.hasher f.text.items };
}

impl Front {
    fn new(alloc: Global) -> Front {
        Front {
            hasher: Sha256::new(),
            text: Vec::new(alloc),
            next: 0,
        }
    }

    /// Hashes a text behind the others.
    fn add(&mut self, text: &Blob) -> Result<(), AllocError> {
        self.text.extend_from_slice(text.inner())?;
        self.hasher.update(text.inner());
        Ok(())
    }

    /// Hashes texts that are there, until one is missing or so many are hashed.
    fn go_on(&mut self, cells: &[Mutex<Option<Blob>>]) {
        for _ in 0..MOST_AT_ONCE {
            let Some(text) = taken(cells, self.next) else {
                return;
            };
            if self.add(&text).is_err() {
                return;
            }
            self.next = self.next.saturating_add(1);
        }
    }
}

/// The text in a cell, if it is there.
fn taken(cells: &[Mutex<Option<Blob>>], place: usize) -> Option<Blob> {
    let mut held = cells.get(place)?.try_lock()?;
    held.take()
}

/// The texts of chunks that wait, and what is hashed. Whoever seals a chunk puts its text here, and hashes what comes
/// next.
#[derive(Drop)]
pub(crate) struct Hashing {
    shards: u32,
    /// By height and then shard. The text of a chunk that is missing is empty.
    cells: Vec<Mutex<Option<Blob>>>,
    front: Mutex<Front>,
}

impl Hashing {
    /// Nothing is hashed of these blocks.
    pub(crate) fn new(alloc: Global, shards: u32, blocks: &[Block]) -> Result<Hashing, AllocError> {
        let mut cells = Vec::new(alloc);
        for block in blocks {
            for chunk in block.chunks.inner() {
                let missing = chunk.is_none().then(|| Blob::of(Vec::new(alloc)));
                cells.push(Mutex::new(missing))?;
            }
        }
        Ok(Hashing {
            shards,
            cells,
            front: Mutex::new(Front::new(alloc)),
        })
    }

    fn place_of(&self, report: &ChunkResult) -> Option<usize> {
        let below = report.height.0.checked_sub(1)?;
        let row = below.checked_mul(u64::from(self.shards))?;
        let place = row.checked_add(u64::from(report.shard.0))?;
        Some(place as usize)
    }

    /// Puts the text of a chunk into its cell, unless others hold the cell for very long.
    fn put(&self, report: &ChunkResult, text: Blob) -> Option<()> {
        let place = self.place_of(report)?;
        let cell = self.cells.get(place)?;
        for _ in 0..MOST_TRIES {
            if let Some(mut held) = cell.try_lock() {
                *held = Some(text);
                return Some(());
            }
            thread::yield_now();
        }
        None
    }

    /// Ends the hashing. The hash is that of a text with another one behind it, whatever was hashed before.
    pub(crate) fn end(self, text: &Blob, end: &Blob) -> Hash32
        ensures { result.0 ≡ sha256 (text.now ++ end.now) }
    {
        let Hashing {
            shards: _,
            cells: _,
            front,
        } = self;
        hash_of(front.into_inner(), text.inner(), end.inner())
    }
}

/// What stands in a text behind a front of it, or nothing where the text begins otherwise.
fn behind<'t>(text: &'t [u8], front: &[u8]) -> Option<&'t [u8]>
    ensures { IfSome result (λ rest. text.now ≡ front.now ++ rest.now) }
{
    if front.len() > text.len() {
        return None;
    }
    let (first, rest) = text.split_at(front.len());
    if first == front { Some(rest) } else { None }
}

/// The hash of what a hasher holds with two texts behind it.
fn hash_behind(hasher: Sha256, text: &[u8], end: &[u8]) -> Hash32
    ensures { (before : _) → Holds256 hasher before → result.0 ≡ sha256 (before ++ text.now ++ end.now) }
{
    let mut hasher = hasher;
    hasher.update(text);
    hasher.update(end);
    Hash32(hasher.finalize())
}

/// The hash of a text with another one behind it. What is hashed already is taken over where the text begins with it.
fn hash_of(front: Front, text: &[u8], end: &[u8]) -> Hash32
    ensures { result.0 ≡ sha256 (text.now ++ end.now) }
{
    let Front {
        hasher,
        text: hashed,
        next: _,
    } = front;
    match behind(text, hashed.as_slice()) {
        Some(rest) => hash_behind(hasher, rest, end),
        None => hash_behind(Sha256::new(), text, end),
    }
}

impl Watch for Hashing {
    fn see(&self, alloc: Global, report: &ChunkResult) {
        let mut text = Blob::of(Vec::new(alloc));
        if write_chunk(alloc, report, &mut text).is_err() || self.put(report, text).is_none() {
            return;
        }
        if let Some(mut front) = self.front.try_lock() {
            front.go_on(self.cells.as_slice());
        }
    }
}
