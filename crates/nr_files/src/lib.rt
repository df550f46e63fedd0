//! The files of a chain from readable text, and readable text from the files: from the words of the
//! command line to the bytes that are written.
#![tactic(auto)]

mod answer;
mod command;
mod counting;
mod damage;
mod exit;
mod fault;
mod filling;
mod halt;
mod help;
mod laws;
mod output;
mod status;
mod telling;
mod top;
mod versions;

pub use answer::judged;
pub use command::{Request, Work};
pub use halt::Halt;
pub use laws::{asked_law, round_trips};
pub use output::Output;
pub use status::Status;
pub use top::{FILE_LIMIT, at_file, serve_files, stop_status, tell, with_config};
