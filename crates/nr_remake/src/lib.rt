//! The trie of values and of known tries at their places.
#![tactic(auto)]

mod merging;
mod nodes;
mod rests;
mod trie;

pub use merging::remade_root;
