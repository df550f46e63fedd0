//! The trait of what has one spelling.

ghost use Rattle.std.specs.Prelude.{◌≡◌, ◌++◌, OnOk, OnErr, IfOk};
ghost use Rattle.nr_bytes.specs.Answers.{GivesRead};
ghost use Rattle.nr_records.specs.declared.fault.RecordFault.TheVariants.{Memory};

use crate::fault::RecordFault;
use nr_bytes::{Reader, Writer};
use std::alloc::{AllocError, Global};

/// A record, or a field of one: each value has one spelling, and no spelling is a proper front of
/// another one of the same type.
pub trait Spelled: Sized + Drop {
    ghost use Rattle.std.specs.Prelude.{List, ℕ};
    ghost use Rattle.nr_bytes.specs.Reading.{Input};
    ghost use Rattle.nr_records.specs.Reading.{Read};
    ghost use Rattle.nr_bytes.specs.Spelling.{IsRead};

    /// The bytes that spell it.
    ghost spelling: { Self → List ℕ };

    /// Its numbers, lengths and counts fit their fields.
    ghost fits: { Self → Type 0 };

    /// The value at the front of some bytes, or the first fault.
    ghost reading: { Input → Read Self };

    /// Reads the value whose spelling stands next, and nothing behind it.
    ///
    /// # Errors
    ///
    /// The fault of the first field that can't be read, or `Memory`. The reader then stands where
    /// it stood.
    fn read(alloc: Global, reader: &mut Reader<'_>) -> Result<Self, RecordFault>
        ensures gives { GivesRead Memory result reader.new (reading reader.old) }
        ensures refused { OnErr result (reader.new ≡ reader.old) };

    /// Appends the spelling.
    ///
    /// # Errors
    ///
    /// Where there is no memory for it, or a list, a text or bytes have a count of 2^32 or more. The
    /// writer may then hold a part of the spelling.
    fn write(&self, writer: &mut Writer) -> Result<(), AllocError>
        ensures appends { OnOk result (writer.new ≡ writer.old ++ spelling self.now) }
        ensures in_range { OnOk result (fits self.now) };

    /// An equal value with memory of its own.
    ///
    /// # Errors
    ///
    /// Where there is no memory for it.
    fn duplicate(&self, alloc: Global) -> Result<Self, AllocError>
        ensures { IfOk result (λ other. other ≡ self.now) };

    /// What is read is spelled so, and what is spelled so is read.
    ghost law: { IsRead reading spelling fits };
}
