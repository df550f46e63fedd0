//! The configuration of a chain: 75 numbers, read from JSON or one of two that are built in.
#![tactic(auto)]

mod config;
pub mod entries;
mod fault;
mod reading;
mod table;

pub use config::Config;
pub use fault::ConfigFault;
