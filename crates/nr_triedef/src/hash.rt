//! Hashes of nodes, and the count of the steps that make them.

ghost use Rattle.std.specs.Prelude.{◌≡◌, ◌+◌, ◌<◌};
ghost use Rattle.nr_triedef.specs.Node.{digest};
ghost use Rattle.nr_triedef.specs.Root.{no_root};

use nr_ids::Hash32;
use sha2::{Digest, Sha256};
use std::marker::Model;
use std::sync::ledger::{Blank, Book, Ledger, Share};

/// How many nodes were hashed. It takes no bytes at run time, and only `hash_node` changes it.
///
/// A function that hashes takes a `&mut Steps<L>`, for any ledger `L`. A caller that has no ledger
/// of its own opens a blank one in a function over `L`, and calls that with `Brand`:
///
/// ```text
/// fn hashed<L: Ledger>(text: &[u8], blank: Blank) -> NodeHash
///     requires name { blank.name ≡ L.name }
///     requires parts { blank.parts ≡ L.parts }
///     requires whole { 0 < blank.parts }
/// {
///     let mut steps = Steps::<L>::new(blank);
///     hash_node(text, &mut steps)
/// }
///
/// hashed::<Brand>(text, Blank::new(1))
/// ```
///
/// The caller's `Invariants.antt` picks the ledger, by a line
/// `ghosts-hashed a = record { name = a.blank.name; parts = a.blank.parts }`.
#[derive(Drop)]
pub struct Steps<L: Ledger> {
    book: Book<L>,
    share: Share<L>,
}

impl<L: Ledger> Model for Steps<L> {
    ghost use Rattle.std.specs.Prelude.{ℕ, ◌<◌};

    ghost Value = { ℕ };

    ghost view = { λ s. s.book.total };

    ghost invariant = { λ s. 0 < s.share.parts };
}

impl<L: Ledger> Steps<L> {
    /// A counter of a new ledger, at 0.
    pub fn new(blank: Blank) -> Steps<L>
        requires name { blank.name ≡ L.name }
        requires parts { blank.parts ≡ L.parts }
        requires whole { 0 < blank.parts }
        ensures { result ≡ 0 }
    {
        let (book, share) = blank.open::<L>();
        Steps { book, share }
    }

    // One step more.
    fn tick(&mut self)
        ensures { self.new ≡ self.old + 1 }
    {
        self.book.add(&mut self.share, 1);
    }
}

/// The SHA-256 of a node's text, made only by `hash_node`; or the root of no entries, 32 zero
/// bytes. Contracts see it as those 32 bytes.
#[derive(Clone, Copy, Debug)]
pub struct NodeHash {
    hash: Hash32,
}

impl Model for NodeHash {
    ghost use Rattle.nr_ids.specs.declared.key.Hash32.{Hash32};

    ghost Value = { Hash32 };

    ghost view = { λ h. h.hash };

    ghost inverse = { λ h. record { hash = h } };
}

/// What a trie tells the node above it: the hash of its top node, and the memory usage of all its
/// nodes, in bytes.
#[derive(Clone, Copy, Debug)]
pub struct Summary {
    /// The hash of the top node.
    pub hash: NodeHash,
    /// The memory usage of the node and all below it, in bytes.
    pub usage: u64,
}

// The SHA-256 of some bytes.
fn digest(bytes: &[u8]) -> Hash32
    ensures { result ≡ digest bytes.now }
{
    let mut hasher = Sha256::new();
    hasher.update(bytes);
    Hash32(hasher.finalize())
}

/// The hash of a node with this text: its SHA-256 (FIPS 180-4). It counts as one step.
pub fn hash_node<L: Ledger>(text: &[u8], steps: &mut Steps<L>) -> NodeHash
    ensures hash { result ≡ digest text.now }
    ensures step { steps.new ≡ steps.old + 1 }
{
    steps.tick();
    NodeHash { hash: digest(text) }
}

/// The root of no entries: 32 zero bytes.
pub fn empty_root() -> NodeHash
    ensures { result ≡ no_root }
{
    NodeHash {
        hash: Hash32([0; 32]),
    }
}

/// The 32 bytes of a node's hash.
pub fn bytes_of(hash: &NodeHash) -> [u8; 32]
    ensures { result ≡ hash.now.0 }
{
    hash.hash.0
}

/// The SHA-256 of a value (FIPS 180-4). It is no step.
pub fn value_hash(value: &[u8]) -> Hash32
    ensures { result ≡ digest value.now }
{
    digest(value)
}
