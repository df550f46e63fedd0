//! What threads may hold and share.

use crate::lent::{LentCalls, LentKey, LentPermission};
use crate::names::Names;

fn is_send_and_sync<T: Send + Sync>() {}

fn _lent_keys() {
    is_send_and_sync::<LentKey<'_>>();
    is_send_and_sync::<LentPermission<'_>>();
    is_send_and_sync::<LentCalls<'_>>();
    is_send_and_sync::<Names<'_>>();
}
