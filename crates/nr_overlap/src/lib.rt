//! Chunks of several shards at different heights. `Phases` is what has chunks: each is opened, takes the lists that
//! are due to it, and is sealed. A `Core` makes single steps of its shards in any order, and whatever the order, what
//! it shows is what the serial run has: block after block.
#![tactic(auto)]

mod closing;
mod due;
mod event;
mod interleaved;
pub mod laws;
mod next;
mod phases;
mod position;
mod reads;
mod refusal;
mod run;
mod shards;
mod steps;

pub use due::due_list;
pub use event::{Event, StepFault, Why};
pub use interleaved::{Closed, Core};
pub use phases::Phases;
pub use position::{Position, Stage};
pub use run::{run_serially, step_all};
