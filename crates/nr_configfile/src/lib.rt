//! The configuration that a word of a command names: the built-in one, or that of a file.
#![tactic(auto)]

mod loading;
mod refusal;

pub use loading::config_of;
pub use refusal::ConfigRefusal;
