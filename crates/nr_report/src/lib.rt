//! The report: the text of each chunk's results and of the totals of a run.
//!
//! Every line ends with a line feed, and its fields are parted by single spaces. Hashes are 64
//! lower-case hexadecimal digits; bytes are lower-case hexadecimal, with `-` for none.
#![tactic(auto)]

mod digits;
mod printed;
mod report;
mod totals;

pub use digits::{byte_digits, hash_digits};
pub use printed::print_logs;
pub use report::{write_chunk, write_totals};
pub use totals::Totals;
