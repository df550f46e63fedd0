//! Schedules, and a run of one chain or of two legs that they drive.
#![tactic(auto)]

mod answers;
mod checking;
pub mod laws;
mod schedule;
mod tally;

pub use checking::check;
pub use schedule::{Line, ScheduleFault, read_schedule};
