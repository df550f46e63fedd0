//! What threads may hold and share.

use crate::failure::Failure;
use crate::fault::ActionFault;
use crate::frame::Frame;

fn is_send_and_sync<T: Send + Sync>() {}

fn _frames_and_faults() {
    is_send_and_sync::<Frame>();
    is_send_and_sync::<Failure>();
    is_send_and_sync::<ActionFault>();
}
