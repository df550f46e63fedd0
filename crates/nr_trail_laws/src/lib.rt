//! The law of the trail that a run of the machine leaves.
#![tactic(auto)]

mod laws;

pub use laws::trail_law;
