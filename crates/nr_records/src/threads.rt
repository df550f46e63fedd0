//! What threads may hold and share.

use crate::access_key::AccessKey;
use crate::account::Account;
use crate::action::Action;
use crate::chunk_result::ChunkResult;
use crate::fault::RecordFault;
use crate::receipt::Receipt;
use crate::transaction::Transaction;

fn is_send_and_sync<T: Send + Sync>() {}

fn _records_and_results() {
    is_send_and_sync::<Account>();
    is_send_and_sync::<AccessKey>();
    is_send_and_sync::<Action>();
    is_send_and_sync::<Transaction>();
    is_send_and_sync::<Receipt>();
    is_send_and_sync::<ChunkResult>();
    is_send_and_sync::<RecordFault>();
}
