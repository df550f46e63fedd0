//! The records of the ledger, and the one spelling of each.
//!
//! Integers are little-endian. A text, bytes or a list begin with their count, four bytes. An
//! ordinal is one byte. Every other spelling is refused.
#![tactic(auto)]

mod access_key;
mod account;
mod action;
mod chunk_result;
mod decoding;
mod encoding;
mod fault;
mod fields;
mod hashing;
mod ids;
mod laws;
mod lists;
mod options;
mod receipt;
mod spelled;
mod threads;
mod transaction;

pub use access_key::{AccessKey, CallPermission, Permission};
pub use account::Account;
pub use action::Action;
pub use chunk_result::{ChunkLine, ChunkResult, Outcome, RunStatus};
pub use decoding::decode;
pub use encoding::{encode, encode_in};
pub use fault::RecordFault;
pub use hashing::{hash_in, hash_of};
pub use laws::spelling_laws;
pub use receipt::{ActionReceipt, Body, DataReceipt, DataReceiver, Receipt};
pub use spelled::Spelled;
pub use transaction::Transaction;
