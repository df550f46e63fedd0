//! Changes of type.

ghost use Rattle.std.specs.Prelude.{◌≡◌};
ghost use Rattle.std.specs.Int.{w8, w16, w32, w64};
ghost use Rattle.nr_wasmtypes.specs.Tables.{given_by_convert, given_by_load};
ghost use Rattle.nr_wasmnum.specs.Integers.{convert_of, load_of, sign_extended, IsOf};

use crate::operand::low32;
use nr_wasmtypes::{Convert, Load};

/// A number of the one type as one of the other.
#[inline]
pub fn convert(op: Convert, a: u64) -> u64
    ensures value { result ≡ convert_of op a }
    ensures fits { IsOf (given_by_convert op) result }
{
    match op {
        Convert::Wrap | Convert::ExtendU => u64::from(low32(a)),
        Convert::ExtendS => extend_32_to_64(low32(a)),
    }
}

/// The number that a load makes of its bytes, which are lent as the number that they are.
#[inline]
pub fn extend_load(what: Load, bytes: u64) -> u64
    ensures value { result ≡ load_of what bytes }
    ensures fits { IsOf (given_by_load what) result }
{
    match what {
        Load::Full64 => bytes,
        Load::Full32 | Load::Unsigned32To64 => bytes % 0x1_0000_0000,
        Load::Unsigned8To32 | Load::Unsigned8To64 => bytes % 0x100,
        Load::Unsigned16To32 | Load::Unsigned16To64 => bytes % 0x1_0000,
        Load::Signed8To32 => u64::from(extend_8_to_32((bytes % 0x100) as u8)),
        Load::Signed16To32 => u64::from(extend_16_to_32((bytes % 0x1_0000) as u16)),
        Load::Signed8To64 => extend_8_to_64((bytes % 0x100) as u8),
        Load::Signed16To64 => extend_16_to_64((bytes % 0x1_0000) as u16),
        Load::Signed32To64 => extend_32_to_64(low32(bytes)),
    }
}

#[inline]
fn extend_8_to_32(n: u8) -> u32
    ensures { result ≡ sign_extended w8 w32 n }
{
    i32::from(n.cast_signed()).cast_unsigned()
}

#[inline]
fn extend_16_to_32(n: u16) -> u32
    ensures { result ≡ sign_extended w16 w32 n }
{
    i32::from(n.cast_signed()).cast_unsigned()
}

#[inline]
fn extend_8_to_64(n: u8) -> u64
    ensures { result ≡ sign_extended w8 w64 n }
{
    i64::from(n.cast_signed()).cast_unsigned()
}

#[inline]
fn extend_16_to_64(n: u16) -> u64
    ensures { result ≡ sign_extended w16 w64 n }
{
    i64::from(n.cast_signed()).cast_unsigned()
}

#[inline]
fn extend_32_to_64(n: u32) -> u64
    ensures { result ≡ sign_extended w32 w64 n }
{
    i64::from(n.cast_signed()).cast_unsigned()
}
