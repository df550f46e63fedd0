//! Options as fields of records.

ghost use Rattle.nr_records.specs.Options.{option_at, option_bytes, IsOption};
ghost use Rattle.nr_records.specs.OptionLaw.{option_law};

use crate::fault::RecordFault;
use crate::fields::u8_of;
use crate::spelled::Spelled;
use nr_bytes::{Reader, Writer};
use std::alloc::{AllocError, Global};

impl<T: Spelled> Spelled for Option<T> {
    ghost spelling = { option_bytes T.spelling };

    ghost fits = { IsOption T.fits };

    ghost reading = { option_at T.reading };

    ghost law = { option_law T.reading T.spelling T.fits T.law };

    #[tactic(auto, unfolding(crate::specs::Options::option_at))]
    fn read(alloc: Global, reader: &mut Reader<'_>) -> Result<Option<T>, RecordFault> {
        let at = reader.at();
        let mut ahead = reader.fork();
        let value = match u8_of(&mut ahead)? {
            0 => None,
            1 => Some(T::read(alloc, &mut ahead)?),
            byte => return Err(RecordFault::BadByte { at, byte }),
        };
        *reader = ahead;
        Ok(value)
    }

    fn write(&self, writer: &mut Writer) -> Result<(), AllocError> {
        match self {
            None => writer.put_u8(0),
            Some(value) => {
                writer.put_u8(1)?;
                value.write(writer)
            }
        }
    }

    fn duplicate(&self, alloc: Global) -> Result<Option<T>, AllocError> {
        match self {
            None => Ok(None),
            Some(value) => Ok(Some(value.duplicate(alloc)?)),
        }
    }
}
