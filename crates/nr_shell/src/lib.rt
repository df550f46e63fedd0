//! The shell of a program: why a command stops, the loading of files, and the writing of what it answers.
#![tactic(auto)]

mod laws;
mod loading;
mod stop;
mod writing;

pub use laws::{plan_law, with_bytes_law};
pub use loading::load;
pub use stop::Stop;
pub use writing::write_all;
