//! Calls of contracts: the code of an account runs over the state of its shard.
#![tactic(auto)]

mod caller;
mod keeping;
mod methods;
mod parts;
mod preparing;
mod refused;
mod threads;

pub use caller::ContractCaller;
