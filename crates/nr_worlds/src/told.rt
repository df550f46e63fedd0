//! The columns that entries stand for.

ghost use Rattle.std.specs.Prelude.{IfOk};
ghost use Rattle.nr_entries.specs.Order.{rises};
ghost use Rattle.nr_entries.specs.Told.{AreBytes, are_told};
ghost use Rattle.nr_worlds.specs.Tests.{StandsFor};

use nr_bytes::List;
use nr_columns::{Columns, Entry};
use nr_entries::{are_told, rises};
use nr_store::PlainStore;
use std::alloc::{AllocError, Global};

/// The columns that entries stand for; `None` where an entry isn't one of a column, or the keys
/// don't rise.
#[tactic(auto, using(nr_entries::proofs::Contents::laid_told))]
pub(crate) fn columns_of(
    alloc: Global,
    entries: &List<Entry>,
) -> Result<Option<Columns<PlainStore>>, AllocError>
    requires { AreBytes entries.now }
    ensures { IfOk result (λ columns. StandsFor entries.now columns) }
{
    if !rises(entries.inner()) || !are_told(alloc, entries.inner())? {
        return Ok(None);
    }
    let columns = Columns::from_entries(alloc, PlainStore::new(alloc), entries)?;
    Ok(Some(columns))
}
