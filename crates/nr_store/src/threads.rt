//! What threads may hold and share.

use crate::lending::Lent;
use crate::plain::PlainStore;

fn is_send_and_sync<T: Send + Sync>() {}

fn _store() {
    is_send_and_sync::<PlainStore>();
    is_send_and_sync::<Lent<'static>>();
}
