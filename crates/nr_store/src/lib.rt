//! A store in memory, with checkpoints and the root of the state trie.
#![tactic(auto)]

mod fork;
mod lending;
mod nodes;
mod plain;
mod root;
mod slots;
mod span;
#[cfg(test)]
mod tests;
mod threads;
mod trie;

pub use lending::Lent;
pub use plain::PlainStore;
pub use span::{Entry, Span};
