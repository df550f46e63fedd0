//! A chain that two JSON texts describe, run in one step: what `genesis`, `blocks`, `run` or `check`, and
//! `show report` do one behind another, with no file between them.
#![tactic(auto)]

mod command;
mod laws;
mod making;
mod running;
mod showing;
mod stops;
mod top;
mod words;

pub use laws::asked_law;
pub use top::serve_words;
