//! What programs print, for people: a sentence for each line, and a report as JSON.
#![tactic(auto)]

mod call_sentences;
mod entries;
mod explaining;
mod form;
mod line_sentences;
mod lines;
mod numbers;
mod program;
mod report;
mod sentences;
mod shown;
mod written;

pub use explaining::{explain, told_of};
pub use report::{ReportFault, show_report};
