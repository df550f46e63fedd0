//! Lists that are carried to the shards under other boundaries.

ghost use Rattle.std.specs.Prelude.{◌≡◌, IfOk};
ghost use Rattle.nr_cut.specs.Cut.{carried};

use nr_bytes::List;
use nr_layout::Layout;
use nr_records::Receipt;
use std::alloc::{AllocError, Global};

/// What each shard under a layout gets of the lists that were sent under another one, in the order
/// of the shards: the receipts whose receivers live in it, list after list and each in its order.
/// The lists stand by source and then by destination.
///
/// # Errors
///
/// Where there is no memory for the lists.
pub fn carry(
    alloc: Global,
    left: List<List<Receipt>>,
    layout: &Layout,
) -> Result<List<List<Receipt>>, AllocError>
    ensures { IfOk result (λ lists. lists ≡ carried layout.now left) }
{
    let mut all = Vec::new(alloc);
    for list in left.into_inner() {
        let mut receipts = list.into_inner();
        all.append(&mut receipts)?;
    }
    layout.route(alloc, List::of(all))
}
