//! The texts that a walk over the trie of some entries looks at, each once, in the walk's order.
#![tactic(auto)]

mod gathering;
mod sweeping;

pub use gathering::{gather, root_of_gathered};
