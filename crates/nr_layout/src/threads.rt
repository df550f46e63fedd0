//! What threads may hold and share.

use crate::layout::Layout;

fn is_send_and_sync<T: Send + Sync>() {}

fn _layouts() {
    is_send_and_sync::<Layout>();
}
