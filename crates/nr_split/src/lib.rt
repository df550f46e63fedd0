//! The worlds of shards, as trie entries, laid out by other boundaries.
#![tactic(auto)]

mod delayed;
mod owned;
mod owners;
mod splitting;

pub use splitting::split_worlds;
