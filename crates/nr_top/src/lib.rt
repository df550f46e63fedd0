//! The replay of a chain: from the words and the bytes of the files to the bytes of the report.
#![tactic(auto)]

mod chain;
mod commands;
mod exit;
mod generated;
mod laws;
mod legs;
mod part_files;
mod refused;
mod root_word;
mod run;
mod run_to;
mod state_after;
mod status;
mod top;
mod work;

pub use chain::{Begun, begin};
pub use commands::replay_bytes;
pub use generated::first_lines;
pub use laws::{asked_law, behind_law, chunks_law, totals_law};
pub use status::Status;
pub use top::{serial, serve};
pub use work::Work;
