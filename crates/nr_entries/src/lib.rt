//! Entries of a state trie, told by their columns.
#![tactic(auto)]

mod counting;
mod order;
mod split;
mod told;

pub use counting::{count_in, owned_bytes};
pub use order::{bytes_law, rises};
pub use split::split_at_first;
pub use told::{are_told, is_told};
