//! What threads may hold and share.

use crate::trie_store::TrieStore;

fn is_send_and_sync<T: Send + Sync>() {}

fn _store() {
    is_send_and_sync::<TrieStore>();
}
