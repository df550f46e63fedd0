//! The number by which the kind of a fault is told, and its place.

ghost use Rattle.std.specs.Prelude.{◌≡◌};
ghost use Rattle.nr_wasmbin.specs.Kinds.{decode_kind, decode_place};

use crate::fault::DecodeFault;

/// The number of a fault's kind, from 1 to 7: 0 where memory ran out.
pub fn decode_kind(fault: DecodeFault) -> u32
    ensures { result ≡ decode_kind fault }
{
    match fault {
        DecodeFault::Short { .. } => 1,
        DecodeFault::Leb { .. } => 2,
        DecodeFault::Section { .. } => 3,
        DecodeFault::Opcode { .. } => 4,
        DecodeFault::Float { .. } => 5,
        DecodeFault::Utf8 { .. } => 6,
        DecodeFault::TooMany { .. } => 7,
        DecodeFault::Memory => 0,
    }
}

/// The place of a fault: 0 where memory ran out.
pub fn decode_place(fault: DecodeFault) -> usize
    ensures { result ≡ decode_place fault }
{
    match fault {
        DecodeFault::Short { at } => at,
        DecodeFault::Leb { at } => at,
        DecodeFault::Section { at } => at,
        DecodeFault::Opcode { at } => at,
        DecodeFault::Float { at } => at,
        DecodeFault::Utf8 { at } => at,
        DecodeFault::TooMany { at } => at,
        DecodeFault::Memory => 0,
    }
}
