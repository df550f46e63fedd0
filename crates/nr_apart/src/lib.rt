//! Shards whose worlds have only what lives in them.
#![tactic(auto)]

pub mod laws;
