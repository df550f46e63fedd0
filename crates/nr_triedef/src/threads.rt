//! What threads may hold and share.

use crate::fault::NodeFault;
use crate::hash::{NodeHash, Summary};
use crate::node::Node;

fn is_send_and_sync<T: Send + Sync>() {}

fn _nodes_and_hashes() {
    is_send_and_sync::<Node>();
    is_send_and_sync::<NodeFault>();
    is_send_and_sync::<NodeHash>();
    is_send_and_sync::<Summary>();
}
