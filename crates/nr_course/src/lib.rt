//! A run of one chain, or of two legs: of a chain, and of what goes on under other boundaries where it is over.
#![tactic(auto)]

mod crossing;
pub mod laws;
mod summing;
mod threads;
mod turn;

pub use crossing::{Crossed, cross};
pub use summing::totals_over;
pub use turn::{Turn, parted};
