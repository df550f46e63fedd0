//! What threads may hold and share.

use crate::executed::Executed;

fn is_send_and_sync<T: Send + Sync>() {}

fn _executed() {
    is_send_and_sync::<Executed>();
}
