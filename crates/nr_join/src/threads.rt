//! What threads may hold and share.

use crate::offered::{Held, Offered};

fn is_send_and_sync<T: Send + Sync>() {}

fn _results() {
    is_send_and_sync::<Held>();
    is_send_and_sync::<Offered>();
}
