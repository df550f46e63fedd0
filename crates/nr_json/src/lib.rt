//! The JSON form of records: what a person writes for the genesis and the blocks of a chain.
//!
//! Amounts are texts of decimal digits, bytes are hexadecimal texts, and a faulty value is told by
//! the path of its member.
#![tactic(auto)]

mod access_key;
mod action;
mod base58;
mod block;
mod chain_file;
mod fault;
mod floats;
mod form;
mod genesis;
mod keys;
mod laws;
mod lists;
mod plain;
mod transaction;
mod variants;

pub use chain_file::StatedBlocks;
pub use fault::{JsonFault, Wrong};
pub use form::Form;
pub use genesis::{StatedAccount, StatedEntry, StatedGenesis};
pub use laws::form_laws;
