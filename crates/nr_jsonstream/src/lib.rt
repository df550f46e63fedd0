//! The genesis of a JSON text, read entry by entry, so that no tree of the whole text stands in memory.
#![tactic(auto)]

mod genesis;
mod list;
mod unread;
mod value;

pub use genesis::genesis_in_text;
pub use unread::Unread;
