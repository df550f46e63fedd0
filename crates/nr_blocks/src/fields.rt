//! Fields of the files that no record of the ledger has.

ghost use Rattle.nr_records.specs.Reading.{nat_at};
ghost use Rattle.nr_bytes.specs.Answers.{GivesRead};
ghost use Rattle.nr_records.specs.declared.fault.RecordFault.TheVariants.{Memory};
ghost use Rattle.nr_blocks.specs.Files.{magic_at, version_at};

use crate::version::Version;
use nr_bytes::Reader;
use nr_records::RecordFault;

/// The ordinal of an entry.
pub(crate) fn ordinal_of(reader: &mut Reader<'_>) -> Result<u8, RecordFault>
    ensures { GivesRead Memory result reader.new (nat_at 1 reader.old) }
{
    Ok(reader.u8()?)
}

/// How many items a list has.
pub(crate) fn count_of(reader: &mut Reader<'_>) -> Result<u32, RecordFault>
    ensures { GivesRead Memory result reader.new (nat_at 4 reader.old) }
{
    Ok(reader.u32()?)
}

/// The word that a file begins with.
pub(crate) fn magic_of(reader: &mut Reader<'_>, magic: [u8; 4]) -> Result<[u8; 4], RecordFault>
    ensures { GivesRead Memory result reader.new (magic_at magic reader.old) }
{
    let at = reader.at();
    let word = reader.fixed::<4>()?;
    if magic.as_slice() != word.as_slice() {
        return Err(RecordFault::BadOrdinal { at });
    }
    Ok(word)
}

/// The version of a blocks file, by the word that it begins with.
#[tactic(auto, unfolding(crate::specs::Files::version_at))]
pub(crate) fn version_of(reader: &mut Reader<'_>) -> Result<Version, RecordFault>
    ensures { GivesRead Memory result reader.new (version_at reader.old) }
{
    let at = reader.at();
    let word = reader.fixed::<4>()?;
    if b"NRB1".as_slice() == word.as_slice() {
        Ok(Version::One)
    } else if b"NRB2".as_slice() == word.as_slice() {
        Ok(Version::Two)
    } else {
        Err(RecordFault::BadOrdinal { at })
    }
}
