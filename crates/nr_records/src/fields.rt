//! Numbers, bytes and texts, with the faults of records.

ghost use Rattle.std.specs.Prelude.{◌≡◌, ◌++◌, ◌^◌, OnOk};
ghost use Rattle.nr_bytes.specs.Numbers.{little};
ghost use Rattle.nr_bytes.specs.Writing.{counted_bytes};
ghost use Rattle.nr_records.specs.Reading.{nat_at, raw_at, blob_at, string_at};
ghost use Rattle.nr_bytes.specs.Answers.{GivesAs, GivesRead};
ghost use Rattle.nr_bytes.specs.Spelling.{Below, IsCounted, IsString};
ghost use Rattle.nr_bytes.proofs.Fields.{nat_law, blob_law, string_law};
ghost use Rattle.nr_records.specs.Fault.{record_fault};
ghost use Rattle.nr_records.specs.declared.fault.RecordFault.TheVariants.{Memory};

use crate::fault::RecordFault;
use crate::spelled::Spelled;
use nr_bytes::{Blob, Reader, Text, Writer};
use std::alloc::{AllocError, Global};

/// An ordinal or a flag.
pub(crate) fn u8_of(reader: &mut Reader<'_>) -> Result<u8, RecordFault>
    ensures { GivesRead Memory result reader.new (nat_at 1 reader.old) }
{
    Ok(reader.u8()?)
}

pub(crate) fn u32_of(reader: &mut Reader<'_>) -> Result<u32, RecordFault>
    ensures { GivesRead Memory result reader.new (nat_at 4 reader.old) }
{
    Ok(reader.u32()?)
}

pub(crate) fn fixed_of<const N: usize>(reader: &mut Reader<'_>) -> Result<[u8; N], RecordFault>
    ensures { GivesRead Memory result reader.new (raw_at N reader.old) }
{
    Ok(reader.fixed::<N>()?)
}

/// A text, lent.
pub(crate) fn lent_text_of<'a>(reader: &mut Reader<'a>) -> Result<&'a str, RecordFault>
    ensures { GivesAs Memory (λ text. (text.now, reader.new)) result (string_at reader.old) }
{
    Ok(reader.lent_text()?)
}

/// Writes bytes behind their count, where they are few enough to be counted.
fn put_counted(writer: &mut Writer, bytes: &[u8]) -> Result<(), AllocError>
    ensures appends { OnOk result (writer.new ≡ writer.old ++ counted_bytes bytes.now) }
    ensures few { OnOk result (IsCounted bytes.now) }
{
    if u32::try_from(bytes.len()).is_err() {
        return Err(AllocError);
    }
    writer.put_bytes(bytes)
}

impl Spelled for u64 {
    ghost spelling = { little 8 };

    ghost fits = { Below (256 ^ 8) };

    ghost reading = { nat_at 8 };

    ghost law = { nat_law record_fault 8 };

    fn read(_alloc: Global, reader: &mut Reader<'_>) -> Result<u64, RecordFault> {
        Ok(reader.u64()?)
    }

    fn write(&self, writer: &mut Writer) -> Result<(), AllocError> {
        writer.put_u64(*self)
    }

    fn duplicate(&self, _alloc: Global) -> Result<u64, AllocError> {
        Ok(*self)
    }
}

impl Spelled for u128 {
    ghost spelling = { little 16 };

    ghost fits = { Below (256 ^ 16) };

    ghost reading = { nat_at 16 };

    ghost law = { nat_law record_fault 16 };

    fn read(_alloc: Global, reader: &mut Reader<'_>) -> Result<u128, RecordFault> {
        Ok(reader.u128()?)
    }

    fn write(&self, writer: &mut Writer) -> Result<(), AllocError> {
        writer.put_u128(*self)
    }

    fn duplicate(&self, _alloc: Global) -> Result<u128, AllocError> {
        Ok(*self)
    }
}

impl Spelled for Blob {
    ghost spelling = { counted_bytes };

    ghost fits = { IsCounted };

    ghost reading = { blob_at };

    ghost law = { blob_law record_fault };

    fn read(alloc: Global, reader: &mut Reader<'_>) -> Result<Blob, RecordFault> {
        Ok(reader.bytes(alloc)?)
    }

    fn write(&self, writer: &mut Writer) -> Result<(), AllocError> {
        put_counted(writer, self.inner())
    }

    fn duplicate(&self, alloc: Global) -> Result<Blob, AllocError> {
        Blob::duplicate(self, alloc)
    }
}

impl Spelled for Text {
    ghost spelling = { counted_bytes };

    ghost fits = { IsString };

    ghost reading = { string_at };

    ghost law = { string_law record_fault };

    fn read(alloc: Global, reader: &mut Reader<'_>) -> Result<Text, RecordFault> {
        Ok(reader.text(alloc)?)
    }

    fn write(&self, writer: &mut Writer) -> Result<(), AllocError> {
        put_counted(writer, self.inner().as_bytes())
    }

    fn duplicate(&self, alloc: Global) -> Result<Text, AllocError> {
        Text::duplicate(self, alloc)
    }
}
