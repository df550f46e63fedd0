//! The run of a chain by threads, which comes to the serial run's outcome whatever the threads do.
#![tactic(auto)]

mod ended;
pub mod laws;
mod threads;
mod watched;

pub use ended::run_to_end;
pub use watched::{Unwatched, Watch, Watched};
