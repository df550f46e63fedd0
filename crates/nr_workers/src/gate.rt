//! What a worker passes on its way.

use nr_ids::{Height, ShardId};

/// Where a worker stands in a chunk when it passes its gate.
#[derive(Clone, Copy, Debug, PartialEq, Eq)]
pub enum Moment {
    /// The chunk is to be opened.
    BeforeOpen,
    /// The chunk is sealed, and its lists aren't published yet.
    AfterSeal,
    /// The lists of the chunk are published.
    AfterPublish,
}

/// What each worker passes at three moments of each of its chunks, in its own thread, or in the caller's where none
/// could be started. A gate may take its time, and so hold a shard back. It changes nothing of what the run gives.
pub trait Gate {
    /// Lets a shard pass. The height is that of the chunk.
    fn pass(&self, shard: ShardId, height: Height, moment: Moment);
}

/// The gate that holds nobody back.
#[derive(Clone, Copy, Debug)]
pub struct OpenGate;

impl Gate for OpenGate {
    fn pass(&self, _shard: ShardId, _height: Height, _moment: Moment) {}
}
