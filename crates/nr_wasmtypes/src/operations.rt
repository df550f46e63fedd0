//! What operations take and give.

ghost use Rattle.std.specs.Prelude.{◌≡◌};
ghost use Rattle.nr_wasmtypes.specs.Tables.{taken_by_convert, given_by_convert, given_by_load, taken_by_store};
ghost use Rattle.nr_wasmtypes.specs.Tables.{align_of_load, align_of_store};

use crate::instr::{Convert, Load, Store, ValType};

impl Convert {
    /// The type of the number that it takes.
    #[inline]
    pub fn taken(self) -> ValType
        ensures { result ≡ taken_by_convert self }
    {
        match self {
            Convert::Wrap => ValType::I64,
            Convert::ExtendS | Convert::ExtendU => ValType::I32,
        }
    }

    /// The type of the number that it gives.
    #[inline]
    pub fn given(self) -> ValType
        ensures { result ≡ given_by_convert self }
    {
        match self {
            Convert::Wrap => ValType::I32,
            Convert::ExtendS | Convert::ExtendU => ValType::I64,
        }
    }
}

impl Load {
    /// The type of the number that it gives.
    #[inline]
    pub fn given(self) -> ValType
        ensures { result ≡ given_by_load self }
    {
        match self {
            Load::Full32
            | Load::Signed8To32
            | Load::Unsigned8To32
            | Load::Signed16To32
            | Load::Unsigned16To32 => ValType::I32,
            _ => ValType::I64,
        }
    }

    /// The exponent of its natural alignment, from 0 to 3: 2 to this many bytes are read.
    #[inline]
    pub fn align(self) -> u8
        ensures { result ≡ align_of_load self }
    {
        match self {
            Load::Signed8To32 | Load::Unsigned8To32 | Load::Signed8To64 | Load::Unsigned8To64 => 0,
            Load::Signed16To32 | Load::Unsigned16To32 | Load::Signed16To64 | Load::Unsigned16To64 =>
                1,
            Load::Full32 | Load::Signed32To64 | Load::Unsigned32To64 => 2,
            Load::Full64 => 3,
        }
    }
}

impl Store {
    /// The type of the number that it takes.
    #[inline]
    pub fn taken(self) -> ValType
        ensures { result ≡ taken_by_store self }
    {
        match self {
            Store::Full32 | Store::Low8Of32 | Store::Low16Of32 => ValType::I32,
            _ => ValType::I64,
        }
    }

    /// The exponent of its natural alignment, from 0 to 3: 2 to this many bytes are written.
    #[inline]
    pub fn align(self) -> u8
        ensures { result ≡ align_of_store self }
    {
        match self {
            Store::Low8Of32 | Store::Low8Of64 => 0,
            Store::Low16Of32 | Store::Low16Of64 => 1,
            Store::Full32 | Store::Low32Of64 => 2,
            Store::Full64 => 3,
        }
    }
}
