//! Reading a record out of all of some bytes.

ghost use Rattle.std.specs.Prelude.{◌≡◌, IfOk};
ghost use Rattle.nr_records.specs.Reading.{all_of};
ghost use Rattle.nr_bytes.specs.Answers.{Gives};
ghost use Rattle.nr_records.specs.declared.fault.RecordFault.TheVariants.{Memory};

use crate::fault::RecordFault;
use crate::spelled::Spelled;
use nr_bytes::Reader;
use std::alloc::Global;

#[tactic(auto, unfolding(nr_bytes::specs::Fields::all_of))]
fn whole<T: Spelled>(alloc: Global, bytes: &[u8]) -> Result<T, RecordFault>
    ensures { Gives Memory result (all_of T.reading bytes.now) }
{
    let mut reader = Reader::new(bytes);
    let value = T::read(alloc, &mut reader)?;
    reader.end()?;
    Ok(value)
}

/// The value that the bytes spell, all of the bytes.
///
/// # Errors
///
/// The fault of the first field that can't be read. `BadByte` at the first byte behind the value,
/// where the value does not take all of the bytes. `Memory` where memory ran out.
pub fn decode<T: Spelled>(alloc: Global, bytes: &[u8]) -> Result<T, RecordFault>
    // What is read is spelled so.
    ensures found { IfOk result (λ v. T.fits v × (bytes.now ≡ T.spelling v)) }
    // What is spelled so is read, unless memory runs out.
    ensures only { (v : T) → T.fits v → bytes.now ≡ T.spelling v → Gives Memory result (Ok v) }
    // Which fault it is.
    ensures exact { Gives Memory result (all_of T.reading bytes.now) }
{
    whole(alloc, bytes)
}
