//! Proofs that a line of a chunk's result stands at one place.
//!
//! The lines of a kind are the items of a tree of SHA-256 hashes, whose root stands for all of them
//! in their order. A proof is an item with the hashes beside its way up to that root.
#![tactic(auto)]

mod explaining;
mod fault;
mod hashing;
mod items;
mod laws;
mod levels;
mod proof;
mod proving;
mod reading;
mod verifying;
mod writing;

pub use explaining::{Explained, explain};
pub use fault::ProofFault;
pub use laws::{item_laws, text_laws, tree_laws};
pub use nr_words::ProofKind;
pub use proof::Proof;
pub use proving::{chunk_root, item_count, prove};
pub use reading::read_proof;
pub use verifying::verify;
pub use writing::write_proof;
