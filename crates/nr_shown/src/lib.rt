//! What is shown as JSON and never read: a part of a state, a proof, and a gathered chunk.
#![tactic(auto)]

mod gathered;
mod part;
mod proof;
mod receipt;
mod values;

pub use gathered::gathered_json;
pub use part::part_json;
pub use proof::proof_json;
