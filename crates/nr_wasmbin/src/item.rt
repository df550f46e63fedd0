//! Lists of entries.

ghost use Rattle.std.specs.Prelude.{◌≤◌, OnOk, length};
ghost use Rattle.nr_bytes.specs.Answers.{GivesAs};
ghost use Rattle.nr_bytes.specs.Fields.{items_at};
ghost use Rattle.nr_wasmbin.specs.Fields.{Gives, list_at};
ghost use Rattle.nr_wasmbin.specs.declared.fault.DecodeFault.TheVariants.{Memory};

use crate::cursor::Cursor;
use crate::fault::DecodeFault;
use nr_bytes::List;
use std::alloc::Global;

/// An entry of a list of a module.
pub(crate) trait Item: Sized + Drop {
    ghost use Rattle.nr_bytes.specs.Reading.{Input};
    ghost use Rattle.nr_wasmbin.specs.Fields.{Read};

    /// The entry at the front of some bytes, or the first fault.
    ghost reading: { Input → Read Self };

    fn read(alloc: Global, cursor: &mut Cursor<'_>) -> Result<Self, DecodeFault>
        ensures gives { Gives result cursor.new (reading cursor.old) }
        ensures shorter { OnOk result (length cursor.new.left ≤ length cursor.old.left) };
}

/// So many entries. Room is made for them at once, for no more than there are bytes.
pub(crate) fn read_items<T: Item>(
    alloc: Global,
    cursor: &mut Cursor<'_>,
    count: u32,
) -> Result<Vec<T>, DecodeFault>
    ensures gives { GivesAs Memory (λ v. (v.items, cursor.new)) result (items_at T.reading count cursor.old) }
    ensures shorter { OnOk result (length cursor.new.left ≤ length cursor.old.left) }
{
    let mut items = Vec::with_capacity(alloc, cursor.left().min(count as usize))?;
    for _ in 0..count {
        let item = T::read(alloc, cursor)?;
        items.push(item)?;
    }
    Ok(items)
}

/// A count, and that many entries.
#[tactic(auto, unfolding(crate::specs::Fields::list_at))]
pub(crate) fn read_list<T: Item>(
    alloc: Global,
    cursor: &mut Cursor<'_>,
) -> Result<List<T>, DecodeFault>
    ensures gives { Gives result cursor.new (list_at T.reading cursor.old) }
    ensures shorter { OnOk result (length cursor.new.left ≤ length cursor.old.left) }
{
    let count = cursor.count()?;
    let items = read_items(alloc, cursor, count)?;
    Ok(List::of(items))
}
