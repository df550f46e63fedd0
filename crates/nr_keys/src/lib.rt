//! Access keys as they are spelled: what one permits, with its methods lent, and the bytes of one whose nonce and
//! allowance are others.
#![tactic(auto)]

mod changing;
mod lent;
mod names;
mod threads;

pub use changing::changed;
pub use lent::{LentCalls, LentKey, LentPermission, lent_key};
pub use names::Names;
