//! What threads may hold and share.

use crate::converted::Converted;
use crate::fault::TxFault;

fn is_send_and_sync<T: Send + Sync>() {}

fn _results() {
    is_send_and_sync::<Converted>();
    is_send_and_sync::<TxFault>();
}
