//! What threads may hold and share.

use crate::chain::ChainRun;
use crate::chunk_work::ChunkWork;
use crate::chunk_world::ChunkWorld;
use crate::state::ChunkStore;
use crate::tally::Tally;
use nr_state::Caller;

fn is_send<T: Send>() {}

fn is_send_and_sync<T: Send + Sync>() {}

fn _worlds_works_and_tallies() {
    is_send::<ChunkWorld>();
    is_send::<ChunkWork>();
    is_send_and_sync::<Tally>();
}

fn _runs<C: Caller<ChunkStore> + Send + Sync>() {
    is_send_and_sync::<ChainRun<C>>();
}
