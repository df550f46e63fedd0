//! Names of accounts, hashes, keys, shards and heights, and the hashes that are derived from one another.
#![tactic(auto)]

mod account_id;
mod compact_bytes;
mod derivation;
mod fault;
mod key;
mod key_order;
mod number;
mod order;
mod threads;

pub use account_id::AccountId;
pub use compact_bytes::CompactBytes;
pub use derivation::derive;
pub use fault::IdFault;
pub use key::{Hash32, PublicKey};
pub use number::{Height, ShardId};
