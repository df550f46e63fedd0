//! An entry of the state trie.

use nr_bytes::Blob;

/// An entry of the state trie: a key and its value, both of bytes.
#[derive(Debug, PartialEq, Eq, Drop)]
pub struct Entry {
    pub key: Blob,
    pub value: Blob,
}
