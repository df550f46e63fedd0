//! A chunk that is gathered of a chain and run again, beside the serial run of the chain.
#![tactic(auto)]

pub mod laws;
