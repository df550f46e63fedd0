//! The exchange between shard threads. Each shard publishes the lists of its chunks and takes those that are sent to
//! it, with no lock and no barrier. When it asks for a list it gets the serial run's, or `NotYet`, or that another
//! shard gave up.
#![tactic(auto)]

mod exchange;
mod law;
pub mod laws;
mod note;
mod places;
mod planned;
mod port;

pub use exchange::{Exchange, make_exchange};
pub use note::{Link, Note, Room};
pub use planned::{Planned, Serial};
pub use port::{Full, NotYet, Parcel, Port};
