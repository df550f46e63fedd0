//! Worlds and lists that are laid out by other boundaries.
#![tactic(auto)]

mod carrying;
pub mod laws;

pub use carrying::carry;
