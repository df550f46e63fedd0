//! How many bytes an access has.

ghost use Rattle.std.specs.Prelude.{◌≡◌};
ghost use Rattle.nr_wasmmem.specs.Bytes.{width_of_load, width_of_store, IsWidth};

use nr_wasmtypes::{Load, Store};

/// How many bytes a load reads: 1, 2, 4 or 8.
#[inline]
pub fn load_width(what: Load) -> u32
    ensures value { result ≡ width_of_load what }
    ensures width { IsWidth result }
{
    match what {
        Load::Signed8To32 | Load::Unsigned8To32 | Load::Signed8To64 | Load::Unsigned8To64 => 1,
        Load::Signed16To32 | Load::Unsigned16To32 | Load::Signed16To64 | Load::Unsigned16To64 => 2,
        Load::Full32 | Load::Signed32To64 | Load::Unsigned32To64 => 4,
        Load::Full64 => 8,
    }
}

/// How many bytes a store writes: 1, 2, 4 or 8.
#[inline]
pub fn store_width(what: Store) -> u32
    ensures value { result ≡ width_of_store what }
    ensures width { IsWidth result }
{
    match what {
        Store::Low8Of32 | Store::Low8Of64 => 1,
        Store::Low16Of32 | Store::Low16Of64 => 2,
        Store::Full32 | Store::Low32Of64 => 4,
        Store::Full64 => 8,
    }
}
