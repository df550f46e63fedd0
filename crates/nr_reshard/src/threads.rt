//! What threads may hold and share.

use crate::chain_file::ChainFile;

fn is_send_and_sync<T: Send + Sync>() {}

fn _files() {
    is_send_and_sync::<ChainFile>();
}
