//! The part of a state trie that the texts of some of its nodes and values give: the entries of some
//! accounts and of the delayed queue, and the root of the trie after a change of these.
#![tactic(auto)]

mod accounts;
mod partial;

pub use accounts::searched_of;
pub use partial::Partial;
