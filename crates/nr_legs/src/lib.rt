//! A run that goes on under other boundaries.
#![tactic(auto)]

pub mod laws;
