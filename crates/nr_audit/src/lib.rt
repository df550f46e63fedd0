//! The audit of a chain: each of its chunks with all that it is run again from, and its lines, in one archive.
#![tactic(auto)]

mod archiving;
mod chunks;
mod command;
mod exit;
mod gathering;
mod help;
pub mod laws;
mod legs;
mod status;
mod top;

pub use legs::archive_of;
pub use status::Status;
pub use top::audit;
