//! What becomes of a receipt that is offered to a shard's state, and the delayed queue.
#![tactic(auto)]

mod clash;
pub mod laws;
mod offered;
mod offering;
mod queue;
mod running;
mod threads;

pub use offered::{Held, Offered};
pub use offering::offer;
pub use queue::{delay, next_delayed};
