//! What threads may hold and share.

use crate::turn::Turn;

fn is_send_and_sync<T: Send + Sync>() {}

fn _turns() {
    is_send_and_sync::<Turn>();
}
