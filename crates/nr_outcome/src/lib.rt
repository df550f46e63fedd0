//! What becomes of a run that is over: the reports of its chunks, its last worlds, the lists that no chunk took, and
//! the supply. A run that a core made by single steps comes to it, and a run by threads.
#![tactic(auto)]

mod counting;
mod outcome;
mod reports;
mod rows;
mod sums;
mod tallies;
mod text;

pub use outcome::{Left, Outcome, Parts};
pub use reports::Reports;
pub use tallies::{add_report, add_tallies, added, no_tally};
pub use text::{add_lines, joined};
