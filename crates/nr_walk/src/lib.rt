//! The walk over a trie of which the texts of some nodes and values are held: which nodes are looked
//! at, in which order, what is found, and what stands beside it.
#![tactic(auto)]

mod fault;
mod keys;
mod laws;
mod looking;
mod room;
mod searched;
mod sought;
mod texts;
mod told;
mod waiting;
mod walking;
mod whole;

pub use fault::WalkFault;
pub use keys::keys_of;
pub use laws::{completing_law, passing_law};
pub use looking::{look_at, value_text};
pub use nr_columns::Entry;
pub use room::{bytes_in, room_behind, room_behind_children, room_over};
pub use searched::{Searched, finds, looks};
pub use sought::Sought;
pub use texts::Texts;
pub use told::{
    Ending, Spot, children_of, ending_of, further, has_value, is_branch, is_extension, own_usage,
    part_nibbles, spots_of,
};
pub use waiting::Waiting;
pub use walking::{Gain, Kept, Known, Visit, packed};
pub use whole::walk;
