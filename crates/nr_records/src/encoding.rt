//! A record's bytes.

ghost use Rattle.std.specs.Prelude.{◌≡◌, IfOk, OnOk};
ghost use Rattle.nr_records.specs.Reading.{all_of};

use crate::spelled::Spelled;
use nr_bytes::{Blob, Writer};
use std::alloc::{AllocError, Global};

// Most records take fewer bytes.
const ROOM: usize = 256;

/// The spelling of a value.
///
/// # Errors
///
/// Where there is no memory for it, or a count in it would be 2^32 or more.
pub fn encode<T: Spelled>(alloc: Global, value: &T) -> Result<Blob, AllocError>
    ensures spelled { IfOk result (λ bytes. bytes ≡ T.spelling value.now) }
    ensures fits { OnOk result (T.fits value.now) }
    // All of these bytes are read as the value.
    ensures back { IfOk result (λ bytes. all_of T.reading bytes ≡ Ok value.now) }
{
    let mut writer = Writer::with_room(alloc, ROOM)?;
    value.write(&mut writer)?;
    Ok(writer.finish())
}

/// The spelling of a value in a writer that is used again, in place of what it had written.
///
/// # Errors
///
/// As of [`encode`]. The writer may then hold a part of the spelling.
pub fn encode_in<T: Spelled>(writer: &mut Writer, value: &T) -> Result<(), AllocError>
    ensures spelled { OnOk result (writer.new ≡ T.spelling value.now) }
    ensures fits { OnOk result (T.fits value.now) }
    // All of these bytes are read as the value.
    ensures back { OnOk result (all_of T.reading writer.new ≡ Ok value.now) }
{
    writer.clear();
    value.write(writer)?;
    Ok(())
}
