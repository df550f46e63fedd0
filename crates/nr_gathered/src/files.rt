//! The file of a gathered chunk.

ghost use Rattle.std.specs.Prelude.{◌≡◌, ◌++◌, Ok, IfOk, OnOk, OnErr};
ghost use Rattle.nr_bytes.specs.Answers.{Gives, GivesRead};
ghost use Rattle.nr_records.specs.Reading.{all_of, nat_at};
ghost use Rattle.nr_records.specs.declared.fault.RecordFault.TheVariants.{Memory as Exhausted};
ghost use Rattle.nr_gathered.specs.Files.{gathered_at, gathered_bytes, gathered_in, lists_bytes, magic_at, place_bytes};
ghost use Rattle.nr_gathered.specs.Files.{FitLists, FitsGathered, FitsPlace};
ghost use Rattle.nr_gathered.specs.declared.fault.GatheredFault.TheVariants.{Memory};
ghost use Rattle.nr_gathered.specs.declared.gathered.Gathered.{Gathered as AnyGathered};

use crate::fault::GatheredFault;
use crate::gathered::Gathered;
use nr_bytes::{Blob, List, Reader, Writer};
use nr_ids::{Hash32, Height, ShardId};
use nr_layout::Layout;
use nr_records::{Receipt, RecordFault, Spelled, Transaction};
use std::alloc::{AllocError, Global};

/// The word that the file begins with.
const MAGIC: &[u8; 4] = b"NRS1";

fn read_magic(reader: &mut Reader<'_>) -> Result<[u8; 4], RecordFault>
    ensures { GivesRead Exhausted result reader.new (magic_at reader.old) }
{
    let at = reader.at();
    let word = reader.fixed::<4>()?;
    if MAGIC.as_slice() != word.as_slice() {
        return Err(RecordFault::BadOrdinal { at });
    }
    Ok(word)
}

fn read_shard(reader: &mut Reader<'_>) -> Result<u32, RecordFault>
    ensures { GivesRead Exhausted result reader.new (nat_at 4 reader.old) }
{
    Ok(reader.u32()?)
}

#[tactic(auto, unfolding(crate::specs::Files::gathered_at))]
fn read_fields(alloc: Global, reader: &mut Reader<'_>) -> Result<Gathered, RecordFault>
    ensures { GivesRead Exhausted result reader.new (gathered_at reader.old) }
{
    read_magic(reader)?;
    let prior_root = Hash32::read(alloc, reader)?;
    let layout = Layout::read(alloc, reader)?;
    let height = Height(u64::read(alloc, reader)?);
    let timestamp = u64::read(alloc, reader)?;
    let price = Option::<u64>::read(alloc, reader)?;
    let shard = ShardId(read_shard(reader)?);
    let transactions = List::<Transaction>::read(alloc, reader)?;
    let taken = List::<Receipt>::read(alloc, reader)?;
    let texts = List::<Blob>::read(alloc, reader)?;
    Ok(Gathered {
        prior_root,
        layout,
        height,
        timestamp,
        price,
        shard,
        transactions,
        taken,
        texts,
    })
}

#[tactic(auto, unfolding(nr_bytes::specs::Fields::all_of))]
fn read_whole(alloc: Global, bytes: &[u8]) -> Result<Gathered, RecordFault>
    ensures { Gives Exhausted result (all_of gathered_at bytes.now) }
{
    let mut reader = Reader::new(bytes);
    let gathered = read_fields(alloc, &mut reader)?;
    reader.end()?;
    Ok(gathered)
}

#[tactic(auto, unfolding(crate::specs::Files::gathered_in))]
fn gathered_in(alloc: Global, bytes: &[u8]) -> Result<Gathered, GatheredFault>
    ensures { Gives Memory result (gathered_in bytes.now) }
{
    Ok(read_whole(alloc, bytes)?)
}

/// Reads the file of a gathered chunk: the word `NRS1`, the root before the chunk in 32 bytes, the
/// boundaries between the shards, the height and the time in 8 bytes each, the gas price, if there
/// is one, the shard in 4 bytes, the transactions, the receipts that the chunk takes, and the texts.
///
/// # Errors
///
/// `Stake` at the place of the first field that can't be read, if it is the ordinal of an action of
/// staking, and otherwise `Spelling` at that place; a byte behind the texts is such a field, and
/// another word at the front is one at 0. `Memory`.
pub fn read_gathered(alloc: Global, bytes: &[u8]) -> Result<Gathered, GatheredFault>
    ensures gives { Gives Memory result (gathered_in bytes.now) }
    // What is read fits its fields, and the bytes are its file.
    ensures found { IfOk result (λ gathered. FitsGathered gathered × (bytes.now ≡ gathered_bytes gathered)) }
    // The file of what fits its fields is read as that.
    ensures only { (gathered : AnyGathered) → FitsGathered gathered → bytes.now ≡ gathered_bytes gathered
        → Gives Memory result (Ok gathered) }
{
    gathered_in(alloc, bytes)
}

/// Appends where the chunk stands: its height, its time, its price and its shard.
fn put_place(writer: &mut Writer, gathered: &Gathered) -> Result<(), AllocError>
    ensures value { OnOk result (writer.new ≡ writer.old ++ place_bytes gathered.now) }
    ensures fits { OnOk result (FitsPlace gathered.now) }
{
    gathered.height.0.write(writer)?;
    gathered.timestamp.write(writer)?;
    gathered.price.write(writer)?;
    writer.put_u32(gathered.shard.0)
}

/// Appends the lists.
fn put_lists(writer: &mut Writer, gathered: &Gathered) -> Result<(), AllocError>
    ensures value { OnOk result (writer.new ≡ writer.old ++ lists_bytes gathered.now) }
    ensures fits { OnOk result (FitLists gathered.now) }
{
    gathered.transactions.write(writer)?;
    gathered.taken.write(writer)?;
    gathered.texts.write(writer)
}

fn put_chunk(writer: &mut Writer, gathered: &Gathered) -> Result<(), AllocError>
    ensures value { OnOk result (writer.new ≡ writer.old ++ gathered_bytes gathered.now) }
    ensures fits { OnOk result (FitsGathered gathered.now) }
{
    writer.put_raw(MAGIC)?;
    gathered.prior_root.write(writer)?;
    gathered.layout.write(writer)?;
    put_place(writer, gathered)?;
    put_lists(writer, gathered)?;
    Ok(())
}

/// Appends the file of a gathered chunk.
///
/// # Errors
///
/// Where memory ran out; `out` then stays as it was. A list of 2^32 items or more, or bytes of so
/// many, count as that.
pub fn write_gathered(alloc: Global, gathered: &Gathered, out: &mut Blob) -> Result<(), AllocError>
    ensures ok { OnOk result (out.new ≡ out.old ++ gathered_bytes gathered.now) }
    ensures fits { OnOk result (FitsGathered gathered.now) }
    // What is written is read as the same.
    ensures again { OnOk result (gathered_in (gathered_bytes gathered.now) ≡ Ok gathered.now) }
    ensures err { OnErr result (out.new ≡ out.old) }
{
    let mut writer = Writer::new(alloc);
    put_chunk(&mut writer, gathered)?;
    let text = writer.finish();
    out.vec_mut().extend_from_slice(text.inner())
}
