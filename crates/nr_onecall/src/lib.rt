//! A call of a contract for its author: over the real bindings, in a state that has the contract's account alone, and
//! the lines that tell how it ended.
#![tactic(auto)]

mod lines;
mod receipts;
mod request;
mod setting;
mod trial;
mod words;

pub use request::CallRequest;
pub use trial::{Trial, try_call};
