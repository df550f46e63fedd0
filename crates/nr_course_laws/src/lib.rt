//! What a change of boundaries leaves as it is in a run of two legs.
#![tactic(auto)]

pub mod laws;
