//! What threads may hold and share.

use crate::blob::Blob;
use crate::list::List;
use crate::text::Text;
use crate::writer::Writer;

fn is_send_and_sync<T: Send + Sync>() {}

fn _bytes_texts_and_lists<T: Send + Sync>() {
    is_send_and_sync::<Blob>();
    is_send_and_sync::<Text>();
    is_send_and_sync::<Writer>();
    is_send_and_sync::<List<T>>();
}
