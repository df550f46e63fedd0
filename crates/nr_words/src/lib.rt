//! The words of the command line: which are a command, and what it says.
#![tactic(auto)]

mod cutting;
mod forms;
mod kind;
mod numbers;
mod parsers;
mod reading;
mod words;

pub use cutting::cut;
pub use forms::{Form, Found, Place, Value, all_hex_digits, is_digest};
pub use kind::ProofKind;
pub use numbers::{is_numeral, large_number, number_in};
pub use reading::read_words;
pub use words::{
    ChunkItem, ChunkPlace, FileNames, StatePart, Words, is_free, replay_command, serial_command,
};
