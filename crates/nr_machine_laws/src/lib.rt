//! Operands, locals and globals are of their types along a run of valid code.
#![tactic(auto)]

pub mod laws;
