//! The numbers that stand in operands.

ghost use Rattle.std.specs.Prelude.{◌≡◌, ◌%◌, ◌^◌};

/// The number of the type i32: what is left modulo 2^32.
#[inline(always)]
pub fn low32(a: u64) -> u32
    ensures { result ≡ a % 2 ^ 32 }
{
    (a % 0x1_0000_0000) as u32
}

/// The number of the type i64.
#[inline(always)]
pub fn low64(a: u64) -> u64
    ensures { result ≡ a % 2 ^ 64 }
{
    a
}
