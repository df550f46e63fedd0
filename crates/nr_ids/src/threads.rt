//! What threads may hold and share.

use crate::account_id::AccountId;
use crate::compact_bytes::CompactBytes;
use crate::fault::IdFault;
use crate::key::{Hash32, PublicKey};
use crate::number::{Height, ShardId};

fn is_send_and_sync<T: Send + Sync>() {}

fn _names_hashes_and_numbers() {
    is_send_and_sync::<AccountId>();
    is_send_and_sync::<CompactBytes>();
    is_send_and_sync::<IdFault>();
    is_send_and_sync::<Hash32>();
    is_send_and_sync::<PublicKey>();
    is_send_and_sync::<Height>();
    is_send_and_sync::<ShardId>();
}
