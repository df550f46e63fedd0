//! A store over a trie of nodes: its root costs what changed.
#![tactic(auto)]

mod base;
mod drafting;
mod listing;
mod room;
mod threads;
mod trie_store;
mod working;

pub use trie_store::TrieStore;
