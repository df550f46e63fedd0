//! What a guest has beside its code, its memory, globals and table, and the trait of the hosts that a guest
//! calls.
#![tactic(auto)]

mod fault;
mod guest;
mod host;
mod memory;
mod width;

pub use fault::{HostStop, OutOfBounds};
pub use guest::Guest;
pub use host::Host;
pub use memory::Memory;
pub use width::{load_width, store_width};
