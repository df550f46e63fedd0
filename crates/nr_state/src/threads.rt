//! What threads may hold and share.

use crate::calls::{CallContext, CallEnd, CallStop, Returned};
use crate::place::Place;
use crate::state::ShardState;
use nr_triedef::Store;

fn is_send_and_sync<T: Send + Sync>() {}

fn _states<S: Store + Send + Sync>() {
    is_send_and_sync::<ShardState<S>>();
}

fn _calls() {
    is_send_and_sync::<CallContext>();
    is_send_and_sync::<CallEnd>();
    is_send_and_sync::<CallStop>();
    is_send_and_sync::<Returned>();
    is_send_and_sync::<Place>();
}
