//! The check of one module, its listing and its text, and the run or the call of one of its methods, for authors of
//! contracts: from the words of the command line to the lines that tell the answer.
#![tactic(auto)]

mod arguments;
mod command;
mod exit;
mod help;
mod judging;
mod laws;
mod listing;
mod lookup;
mod offer;
mod printed;
mod question;
mod running;
mod status;
mod telling;
mod top;
mod tracing;
mod verdict;

pub use laws::{asked_law, listing_law};
pub use status::Status;
pub use top::check_module;
