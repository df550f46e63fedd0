//! The blocks of a chain whose boundaries may change at one height: the file that gives them, in
//! three versions.
//!
//! The third version begins with the bytes `NRB3`. Behind them stands what changes, or nothing, and
//! then the blocks as in the second version. Fields are spelled by Borsh: integers are
//! little-endian, lists begin with their count as four bytes, a byte 0 stands for nothing and a
//! byte 1 before something. All of a file is read.
#![tactic(auto)]

mod block_list;
mod chain_file;
mod checks;
mod fault;
mod reading;
mod reshard;
mod third;
mod threads;

pub use chain_file::ChainFile;
pub use fault::ChainFault;
pub use reading::read_chain;
pub use reshard::Reshard;
pub use third::{begins_third, decode_third};
