//! Boundaries one after the other.

ghost use Rattle.std.specs.Prelude.{◌≡◌, ◌-◌, length, slice_get, None};
ghost use Rattle.nr_bytes.specs.Answers.{GivesRead, GivesAs};
ghost use Rattle.nr_records.specs.declared.fault.RecordFault.TheVariants.{Memory};
ghost use Rattle.nr_layout.specs.Layout.{is_above};
ghost use Rattle.nr_layout.specs.Reading.{boundary_at, boundaries_at};

use nr_bytes::Reader;
use nr_ids::AccountId;
use nr_records::{RecordFault, Spelled};
use std::alloc::Global;

/// Whether an id may stand behind these boundaries.
fn may_follow(boundaries: &[AccountId], id: &AccountId) -> bool
    ensures { result ≡ is_above (slice_get boundaries.now (length boundaries.now - 1)) id.now }
{
    match boundaries.last() {
        Some(last) => last < id,
        None => true,
    }
}

/// The boundary that stands behind these.
fn boundary_of(
    alloc: Global,
    boundaries: &[AccountId],
    reader: &mut Reader<'_>,
) -> Result<AccountId, RecordFault>
    ensures { GivesRead Memory result reader.new
        (boundary_at (slice_get boundaries.now (length boundaries.now - 1)) reader.old) }
{
    let at = reader.at();
    let id = AccountId::read(alloc, reader)?;
    if may_follow(boundaries, &id) {
        Ok(id)
    } else {
        Err(RecordFault::BoundaryOrder { at })
    }
}

/// As many boundaries as the count says.
pub(crate) fn boundaries_of(
    alloc: Global,
    count: u32,
    reader: &mut Reader<'_>,
) -> Result<Vec<AccountId>, RecordFault>
    ensures { GivesAs Memory (λ v. (v.items, reader.new)) result (boundaries_at None count reader.old) }
{
    let mut boundaries = Vec::new(alloc);
    for _ in 0..count {
        let boundary = boundary_of(alloc, &boundaries, reader)?;
        boundaries.push(boundary)?;
    }
    Ok(boundaries)
}
