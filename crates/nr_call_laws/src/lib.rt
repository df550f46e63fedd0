//! What each call of a chunk keeps, apart from any run.
#![tactic(auto)]

pub mod laws;
