//! Chains that are made from three numbers: the one from which draws are made, how many shards there
//! are, and how many blocks.
#![tactic(auto)]

mod blocks;
mod code;
mod draws;
mod generated;
mod genesis;
mod names;

pub use generated::generate;
