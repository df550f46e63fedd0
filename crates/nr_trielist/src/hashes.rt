//! Hashes of long values, each worked out once.

ghost use Rattle.std.specs.Prelude.{◌≡◌, true, IfOk, IfSome};
ghost use Rattle.nr_triedef.specs.Node.{digest};

use nr_bytes::Blob;
use nr_ids::Hash32;
use nr_triedef::value_hash;
use std::alloc::{AllocError, Global};
use std::marker::Model;

/// How many bytes a value has at least that is kept with its hash.
const LONG: usize = 1 << 10;

/// How many values are kept at most.
const MOST_VALUES: usize = 16;

/// How many bytes the kept values have together at most.
const MOST_BYTES: usize = 1 << 24;

/// A value and its hash. Contracts see the value.
#[derive(Drop)]
struct Hashed {
    value: Blob,
    hash: Hash32,
}

impl Model for Hashed {
    ghost use Rattle.std.specs.Prelude.{List, ℕ};
    ghost use Rattle.nr_trielist.specs.Hashed.{IsHashed};

    ghost Value = { List ℕ };

    ghost view = { λ h. h.value };

    ghost invariant = { IsHashed };
}

impl Hashed {
    fn of(alloc: Global, value: &[u8]) -> Result<Hashed, AllocError>
        ensures { IfOk result (λ hashed. hashed ≡ value.now) }
    {
        let hash = value_hash(value);
        let value = Blob::of(Vec::from_slice(alloc, value)?);
        Ok(Hashed { value, hash })
    }

    fn hash(&self) -> Hash32
        ensures { result ≡ digest self.now }
    {
        self.hash
    }

    fn is(&self, value: &[u8]) -> bool
        ensures { result ≡ true → self.now ≡ value.now }
    {
        self.value.inner() == value
    }
}

// The hash of a value, if it is among these.
fn found(held: &[Hashed], value: &[u8]) -> Option<Hash32>
    ensures { IfSome result (λ hash. hash ≡ digest value.now) }
{
    for hashed in held {
        if hashed.is(value) {
            return Some(hashed.hash());
        }
    }
    None
}

/// Hashes values, and keeps a few of the long ones with their hashes, so that a value that stands in many tries is
/// hashed once: values of at least 1,024 bytes, at most 16 of them with at most 16 MiB together. It changes no answer,
/// and contracts see nothing of it.
#[derive(Drop)]
pub struct Hashes {
    alloc: Global,
    held: Vec<Hashed>,
    room: usize,
}

impl Model for Hashes {
    ghost Value = { Unit {0} };

    ghost view = { λ _. tt };
}

impl Hashes {
    /// None is kept yet. What is kept grows on this allocator.
    pub fn new(alloc: Global) -> Hashes {
        Hashes {
            alloc,
            held: Vec::new(alloc),
            room: MOST_BYTES,
        }
    }

    // Keeps a value, in place of all others where there is no room beside them.
    fn keep(&mut self, hashed: Hashed, length: usize) -> Result<(), AllocError> {
        if self.held.len() >= MOST_VALUES || length > self.room {
            self.held = Vec::new(self.alloc);
            self.room = MOST_BYTES;
        }
        if length <= self.room {
            self.room -= length;
            self.held.push(hashed)?;
        }
        Ok(())
    }

    /// The SHA-256 of a value (FIPS 180-4).
    ///
    /// # Errors
    ///
    /// Where there is no memory to keep it.
    pub fn hash(&mut self, value: &[u8]) -> Result<Hash32, AllocError>
        ensures { IfOk result (λ hash. hash ≡ digest value.now) }
    {
        if value.len() < LONG {
            return Ok(value_hash(value));
        }
        if let Some(hash) = found(&self.held, value) {
            return Ok(hash);
        }
        let hashed = Hashed::of(self.alloc, value)?;
        let hash = hashed.hash();
        self.keep(hashed, value.len())?;
        Ok(hash)
    }
}
