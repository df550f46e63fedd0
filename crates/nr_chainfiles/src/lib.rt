//! The chain that three files give: a configuration, a genesis and the blocks over it.
#![tactic(auto)]

mod loading;
mod refusal;
mod with_bytes;

pub use loading::{ChainFiles, load_chain};
pub use refusal::ChainRefusal;
pub use with_bytes::chain_in_bytes;
