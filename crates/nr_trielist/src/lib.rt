//! All nodes of the trie of entries as a list, depth first.
#![tactic(auto)]

mod fork;
mod growing;
mod hashes;
mod making;

pub use growing::list_nodes;
pub use hashes::Hashes;
pub use making::Top;
