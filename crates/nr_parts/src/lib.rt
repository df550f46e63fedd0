//! A shard's state in parts: each part has the entries of some offsets by memory usage, and texts of
//! the trie's nodes by which it is checked by itself.
#![tactic(auto)]

mod checking;
mod cutting;
mod fault;
mod files;
mod joining;
mod laws;
mod part;
mod share;
mod walking;

pub use checking::check_part;
pub use cutting::cut_part;
pub use fault::PartFault;
pub use files::{read_part, write_part};
pub use joining::{first_refused, join_parts};
pub use laws::{accepted_parts, cut_parts_join, cut_parts_pass, meeting_offsets, parts_in_turn};
pub use part::Part;
pub use share::Share;
