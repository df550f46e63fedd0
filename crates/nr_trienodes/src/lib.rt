//! Nodes of the state trie, kept in an arena and named by numbers: a root stands for a finite map,
//! and old roots stay while new ones are made.
#![tactic(auto)]

mod body;
mod cutting;
mod fault;
mod finding;
mod hashing;
mod listing;
mod making;
mod merging;
mod names;
mod node_bytes;
mod nodes;
mod open_way;
mod packed;
mod putting;
mod settling;
mod shared_bytes;
mod spare;
mod threads;
mod trimming;
mod turn;
mod wide_bytes;

pub use fault::NodesFault;
pub use merging::{Change, CountedRoot};
pub use nodes::{NodeId, Nodes};
