//! Lists as fields of records.

ghost use Rattle.std.specs.Prelude.{◌≡◌, IfOk, OnOk, ◌++◌};
ghost use Rattle.std.specs.List.{flat_map, AllByRecursion};
ghost use Rattle.nr_records.specs.Reading.{list_at};
ghost use Rattle.nr_bytes.specs.Answers.{GivesAs};
ghost use Rattle.nr_bytes.specs.Fields.{items_at};
ghost use Rattle.nr_bytes.specs.Spelling.{list, FitsList};
ghost use Rattle.nr_bytes.proofs.Combined.{list_law};
ghost use Rattle.nr_records.specs.Fault.{record_fault};
ghost use Rattle.nr_records.specs.declared.fault.RecordFault.TheVariants.{Memory};

use crate::fault::RecordFault;
use crate::fields::u32_of;
use crate::spelled::Spelled;
use nr_bytes::{List, Reader, Writer};
use std::alloc::{AllocError, Global};

// A list of up to so many items takes no more room than they do. The count of a longer one isn't believed
// before its items are there.
const FEW: u32 = 16;

fn items_of<T: Spelled>(
    alloc: Global,
    count: u32,
    reader: &mut Reader<'_>,
) -> Result<Vec<T>, RecordFault>
    ensures { GivesAs Memory (λ v. (v.items, reader.new)) result (items_at T.reading count reader.old) }
{
    let mut items = Vec::with_capacity(alloc, count.min(FEW) as usize)?;
    for _ in 0..count {
        let item = T::read(alloc, reader)?;
        items.push(item)?;
    }
    Ok(items)
}

fn write_items<T: Spelled>(items: &[T], writer: &mut Writer) -> Result<(), AllocError>
    ensures appends { OnOk result (writer.new ≡ writer.old ++ flat_map T.spelling items.now) }
    ensures in_range { OnOk result (AllByRecursion T.fits items.now) }
{
    for item in items {
        item.write(writer)?;
    }
    Ok(())
}

fn duplicate_items<T: Spelled>(alloc: Global, items: &[T]) -> Result<Vec<T>, AllocError>
    ensures { IfOk result (λ others. others.items ≡ items.now) }
{
    let mut others = Vec::with_capacity(alloc, items.len())?;
    for item in items {
        others.push(item.duplicate(alloc)?)?;
    }
    Ok(others)
}

impl<T: Spelled> Spelled for List<T> {
    ghost spelling = { list T.spelling };

    ghost fits = { FitsList T.fits };

    ghost reading = { list_at T.reading };

    ghost law = { list_law record_fault T.reading T.spelling T.fits T.law };

    #[tactic(auto, unfolding(nr_bytes::specs::Fields::list_at))]
    fn read(alloc: Global, reader: &mut Reader<'_>) -> Result<List<T>, RecordFault> {
        let mut ahead = reader.fork();
        let count = u32_of(&mut ahead)?;
        let items = items_of(alloc, count, &mut ahead)?;
        *reader = ahead;
        Ok(List::of(items))
    }

    fn write(&self, writer: &mut Writer) -> Result<(), AllocError> {
        let items = self.inner();
        let Ok(count) = u32::try_from(items.len()) else {
            return Err(AllocError);
        };
        writer.put_u32(count)?;
        write_items(items, writer)
    }

    fn duplicate(&self, alloc: Global) -> Result<List<T>, AllocError> {
        Ok(List::of(duplicate_items(alloc, self.inner())?))
    }
}
