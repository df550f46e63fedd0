//! The places of receipts in a run of chunks: each receipt that was routed is executed, postponed, delayed or in
//! flight.
#![tactic(auto)]

pub mod laws;
