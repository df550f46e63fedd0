//! The file of a part.

ghost use Rattle.std.specs.Prelude.{◌≡◌, ◌++◌, ◌<◌, ◌^◌, Ok, IfOk, OnOk, OnErr};
ghost use Rattle.std.specs.List.{flat_map};
ghost use Rattle.nr_bytes.specs.Answers.{Gives, GivesAs, GivesRead};
ghost use Rattle.nr_bytes.specs.Fields.{items_at};
ghost use Rattle.nr_bytes.specs.Writing.{counted_bytes};
ghost use Rattle.nr_parts.specs.Checking.{memory_fault};
ghost use Rattle.nr_parts.specs.Files.{magic_at, hash_at, entry_at, text_at, entries_at, texts_at, part_at, part_in};
ghost use Rattle.nr_parts.specs.Files.{entry_bytes, part_bytes, IsEntry, IsFiled};
ghost use Rattle.nr_bytes.specs.Spelling.{IsCounted};
ghost use Rattle.std.specs.List.{AllByRecursion};
ghost use Rattle.nr_parts.specs.declared.part.Part.{Part as Parts};

use crate::fault::PartFault;
use crate::part::Part;
use nr_bytes::{Blob, List, Reader, Writer};
use nr_columns::Entry;
use nr_ids::Hash32;
use std::alloc::{AllocError, Global};

fn read_magic(reader: &mut Reader<'_>) -> Result<[u8; 4], PartFault>
    ensures { GivesRead memory_fault result reader.new (magic_at reader.old) }
{
    let at = reader.at();
    let word = reader.fixed::<4>()?;
    if b"NRP1".as_slice() != word.as_slice() {
        return Err(PartFault::Spelling { at: at as u64 });
    }
    Ok(word)
}

fn read_hash(reader: &mut Reader<'_>) -> Result<Hash32, PartFault>
    ensures { GivesRead memory_fault result reader.new (hash_at reader.old) }
{
    let bytes = reader.fixed::<32>()?;
    Ok(Hash32(bytes))
}

fn read_entry(alloc: Global, reader: &mut Reader<'_>) -> Result<Entry, PartFault>
    ensures { GivesRead memory_fault result reader.new (entry_at reader.old) }
{
    let key = reader.bytes(alloc)?;
    let value = reader.bytes(alloc)?;
    Ok(Entry { key, value })
}

fn read_text(alloc: Global, reader: &mut Reader<'_>) -> Result<Blob, PartFault>
    ensures { GivesRead memory_fault result reader.new (text_at reader.old) }
{
    let text = reader.bytes(alloc)?;
    Ok(text)
}

fn read_each_entry(
    alloc: Global,
    count: u32,
    reader: &mut Reader<'_>,
) -> Result<Vec<Entry>, PartFault>
    ensures { GivesAs memory_fault (λ v. (v.items, reader.new)) result (items_at entry_at count reader.old) }
{
    let mut items = Vec::new(alloc);
    for _ in 0..count {
        let item = read_entry(alloc, reader)?;
        push_entry(&mut items, item)?;
    }
    Ok(items)
}

fn push_entry(items: &mut Vec<Entry>, item: Entry) -> Result<(), AllocError>
    ensures { OnOk result (items.new.items ≡ items.old.items ++ item ∷ []) }
{
    items.push(item)?;
    Ok(())
}

ghost use Rattle.std.specs.Prelude.{◌∷◌, []};

fn read_each_text(
    alloc: Global,
    count: u32,
    reader: &mut Reader<'_>,
) -> Result<Vec<Blob>, PartFault>
    ensures { GivesAs memory_fault (λ v. (v.items, reader.new)) result (items_at text_at count reader.old) }
{
    let mut items = Vec::new(alloc);
    for _ in 0..count {
        let item = read_text(alloc, reader)?;
        push_text(&mut items, item)?;
    }
    Ok(items)
}

fn push_text(items: &mut Vec<Blob>, item: Blob) -> Result<(), AllocError>
    ensures { OnOk result (items.new.items ≡ items.old.items ++ item ∷ []) }
{
    items.push(item)?;
    Ok(())
}

#[tactic(auto, unfolding(nr_bytes::specs::Fields::list_at))]
fn read_entries(alloc: Global, reader: &mut Reader<'_>) -> Result<List<Entry>, PartFault>
    ensures { GivesRead memory_fault result reader.new (entries_at reader.old) }
{
    let count = reader.u32()?;
    let items = read_each_entry(alloc, count, reader)?;
    Ok(List::of(items))
}

#[tactic(auto, unfolding(nr_bytes::specs::Fields::list_at))]
fn read_texts(alloc: Global, reader: &mut Reader<'_>) -> Result<List<Blob>, PartFault>
    ensures { GivesRead memory_fault result reader.new (texts_at reader.old) }
{
    let count = reader.u32()?;
    let items = read_each_text(alloc, count, reader)?;
    Ok(List::of(items))
}

fn read_fields(alloc: Global, reader: &mut Reader<'_>) -> Result<Part, PartFault>
    ensures { GivesRead memory_fault result reader.new (part_at reader.old) }
{
    read_magic(reader)?;
    let root = read_hash(reader)?;
    let count = reader.u32()?;
    let number = reader.u32()?;
    let entries = read_entries(alloc, reader)?;
    let texts = read_texts(alloc, reader)?;
    Ok(Part {
        root,
        count,
        number,
        entries,
        texts,
    })
}

#[tactic(auto, unfolding(crate::specs::Files::part_in, nr_bytes::specs::Fields::all_of))]
fn part_in(alloc: Global, bytes: &[u8]) -> Result<Part, PartFault>
    ensures { Gives memory_fault result (part_in bytes.now) }
{
    let mut reader = Reader::new(bytes);
    let part = read_fields(alloc, &mut reader)?;
    reader.end()?;
    Ok(part)
}

/// Reads a part file: the word `NRP1`, the root, the count and the number in 4 bytes each, the list
/// of entries and the list of texts.
///
/// # Errors
///
/// `Spelling` at the place of the first field that can't be read, or of the first byte behind the
/// part; and `Memory`.
pub fn read_part(alloc: Global, bytes: &[u8]) -> Result<Part, PartFault>
    ensures value { Gives memory_fault result (part_in bytes.now) }
    // What is read is a part that has a file, and the bytes are this file.
    ensures found { IfOk result (λ part. IsFiled part × (bytes.now ≡ part_bytes part)) }
    // The file of a part is read as this part.
    ensures only { (part : Parts) → IsFiled part → bytes.now ≡ part_bytes part → Gives memory_fault result (Ok part) }
{
    part_in(alloc, bytes)
}

// A count of 2^32 or more counts as want of memory.
fn put_count(writer: &mut Writer, count: usize) -> Result<(), AllocError>
    ensures value { OnOk result (writer.new ≡ writer.old ++ little 4 count) }
    ensures small { OnOk result (count < 256 ^ 4) }
{
    let Ok(count) = u32::try_from(count) else {
        return Err(AllocError);
    };
    writer.put_u32(count)
}

ghost use Rattle.nr_bytes.specs.Numbers.{little};

fn put_bytes(writer: &mut Writer, bytes: &[u8]) -> Result<(), AllocError>
    ensures value { OnOk result (writer.new ≡ writer.old ++ counted_bytes bytes.now) }
    ensures small { OnOk result (IsCounted bytes.now) }
{
    put_count(writer, bytes.len())?;
    writer.put_raw(bytes)
}

fn put_entry(writer: &mut Writer, entry: &Entry) -> Result<(), AllocError>
    ensures value { OnOk result (writer.new ≡ writer.old ++ entry_bytes entry.now) }
    ensures small { OnOk result (IsEntry entry.now) }
{
    put_bytes(writer, entry.key.inner())?;
    put_bytes(writer, entry.value.inner())
}

fn put_entries(writer: &mut Writer, entries: &[Entry]) -> Result<(), AllocError>
    ensures value { OnOk result (writer.new ≡ writer.old ++ flat_map entry_bytes entries.now) }
    ensures small { OnOk result (AllByRecursion IsEntry entries.now) }
{
    for entry in entries {
        put_entry(writer, entry)?;
    }
    Ok(())
}

fn put_texts(writer: &mut Writer, texts: &[Blob]) -> Result<(), AllocError>
    ensures value { OnOk result (writer.new ≡ writer.old ++ flat_map counted_bytes texts.now) }
    ensures small { OnOk result (AllByRecursion IsCounted texts.now) }
{
    for text in texts {
        put_bytes(writer, text.inner())?;
    }
    Ok(())
}

fn put_part(writer: &mut Writer, part: &Part) -> Result<(), AllocError>
    ensures value { OnOk result (writer.new ≡ writer.old ++ part_bytes part.now) }
    ensures filed { OnOk result (IsFiled part.now) }
{
    writer.put_raw(b"NRP1")?;
    writer.put_raw(&part.root.0)?;
    writer.put_u32(part.count)?;
    writer.put_u32(part.number)?;
    put_count(writer, part.entries.inner().len())?;
    put_entries(writer, part.entries.inner())?;
    put_count(writer, part.texts.inner().len())?;
    put_texts(writer, part.texts.inner())
}

/// Appends the file of a part.
///
/// # Errors
///
/// Where memory ran out; `out` then stays as it was. A list of 2^32 items or more, or bytes of so
/// many, count as that.
pub fn write_part(alloc: Global, part: &Part, out: &mut Blob) -> Result<(), AllocError>
    ensures ok { OnOk result (out.new ≡ out.old ++ part_bytes part.now) }
    // What is written is read as the part.
    ensures again { OnOk result (part_in (part_bytes part.now) ≡ Ok part.now) }
    ensures err { OnErr result (out.new ≡ out.old) }
{
    let mut writer = Writer::new(alloc);
    put_part(&mut writer, part)?;
    let text = writer.finish();
    out.vec_mut().extend_from_slice(text.inner())
}
