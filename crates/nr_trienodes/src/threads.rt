//! What threads may hold and share.

use crate::fault::NodesFault;
use crate::merging::{Change, CountedRoot};
use crate::nodes::{NodeId, Nodes};

fn is_send_and_sync<T: Send + Sync>() {}

fn _nodes() {
    is_send_and_sync::<Nodes>();
    is_send_and_sync::<NodeId>();
    is_send_and_sync::<NodesFault>();
    is_send_and_sync::<CountedRoot>();
    is_send_and_sync::<Change<'static>>();
}
