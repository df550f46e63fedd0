//! What threads may hold and share.

use crate::columns::Columns;
use crate::entry::Entry;
use crate::spelled_key::SpelledKey;
use nr_triedef::Store;

fn is_send_and_sync<T: Send + Sync>() {}

fn _columns_and_entries<S: Store + Send + Sync>() {
    is_send_and_sync::<Columns<S>>();
    is_send_and_sync::<Entry>();
    is_send_and_sync::<SpelledKey<'_>>();
}
