//! What threads may hold and share.

use crate::block::Block;
use crate::genesis::Genesis;
use nr_bytes::List;

fn is_send_and_sync<T: Send + Sync>() {}

fn _files() {
    is_send_and_sync::<Genesis>();
    is_send_and_sync::<List<Block>>();
}
