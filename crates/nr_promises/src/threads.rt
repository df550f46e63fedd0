//! What threads may hold and share.

use crate::fault::PromiseFault;
use crate::promise_book::PromiseBook;

fn is_send_and_sync<T: Send + Sync>() {}

fn _books() {
    is_send_and_sync::<PromiseBook>();
    is_send_and_sync::<PromiseFault>();
}
