//! Which shard an account lives in: boundaries split the account ids into shards, in byte order.
#![tactic(auto)]

mod layout;
mod reading;
mod routing;
mod threads;

pub use layout::Layout;
