//! Numbers in LEB128.

ghost use Rattle.std.specs.Prelude.{◌≡◌, ◌≤◌, ◌<◌, ◌^◌, ◌+◌, ℕ, List, ◌∷◌, length, IfOk};
ghost use Rattle.nr_wasmbin.specs.Leb.{unsigned, signed, number};

/// Why no number stands at the front.
#[derive(Clone, Copy, Debug, PartialEq, Eq)]
pub enum LebFault {
    Short,
    Leb,
}

/// The unsigned number that a last byte is.
#[inline(always)]
fn last_unsigned(byte: u64, bits: u32) -> Result<(u64, usize), LebFault>
    requires in_range { bits ≤ 64 }
    requires last { byte < 128 }
    ensures gives { (others : List ℕ) → result ≡ unsigned bits (byte ∷ others) }
    ensures fits { IfOk result (λ r. r.0 < 2 ^ bits) }
    ensures one { IfOk result (λ r. r.1 ≡ 1) }
{
    if bits < 7 && byte >> bits != 0 {
        return Err(LebFault::Leb);
    }
    Ok((byte, 1))
}

/// The signed number that a last byte is.
#[inline(always)]
fn last_signed(byte: u64, bits: u32) -> Result<(u64, usize), LebFault>
    requires in_range { bits ≤ 64 }
    requires some { 0 < bits }
    requires last { byte < 128 }
    ensures gives { (others : List ℕ) → result ≡ signed bits (byte ∷ others) }
    ensures fits { IfOk result (λ r. r.0 < 2 ^ bits) }
    ensures one { IfOk result (λ r. r.1 ≡ 1) }
{
    let half = 1u64 << (bits - 1);
    if byte < 64 {
        if byte >= half {
            return Err(LebFault::Leb);
        }
        return Ok((byte, 1));
    }
    let part = 127 - byte;
    if part >= half {
        return Err(LebFault::Leb);
    }
    Ok((half - 1 - part + half, 1))
}

/// The number that a last byte is, signed or not.
#[inline(always)]
fn last_of(is_signed: bool, byte: u64, bits: u32) -> Result<(u64, usize), LebFault>
    requires in_range { bits ≤ 64 }
    requires some { 0 < bits }
    requires last { byte < 128 }
    ensures gives { (others : List ℕ) → result ≡ number is_signed bits (byte ∷ others) }
    ensures fits { IfOk result (λ r. r.0 < 2 ^ bits) }
    ensures one { IfOk result (λ r. r.1 ≡ 1) }
{
    if is_signed {
        return last_signed(byte, bits);
    }
    last_unsigned(byte, bits)
}

/// The number whose first byte is this one, which isn't its last, and how many bytes it takes.
#[inline(never)]
fn read_more(
    is_signed: bool,
    first: u64,
    others: &[u8],
    bits: u32,
) -> Result<(u64, usize), LebFault>
    requires in_range { bits ≤ 64 }
    requires more { 128 ≤ first }
    requires small { first < 256 }
    ensures gives { result ≡ number is_signed bits (first ∷ others.now) }
    ensures fits { IfOk result (λ r. r.0 < 2 ^ bits) }
    ensures within { IfOk result (λ r. (0 < r.1) × (r.1 ≤ length others.now + 1)) }
{
    if bits <= 7 {
        return Err(LebFault::Leb);
    }
    let mut low = first - 128;
    let mut width: u64 = 128;
    let mut left = bits - 7;
    for index in 0..others.len() {
        let byte = u64::from(others[index]);
        if byte < 128 {
            let (high, count) = last_of(is_signed, byte, left)?;
            return Ok((high * width + low, count + (index + 1)));
        }
        if left <= 7 {
            return Err(LebFault::Leb);
        }
        low += (byte - 128) * width;
        width *= 128;
        left -= 7;
    }
    Err(LebFault::Short)
}

/// The unsigned number of at most so many bits at the front, and how many bytes it takes.
#[inline(always)]
pub(crate) fn read_unsigned(bytes: &[u8], bits: u32) -> Result<(u64, usize), LebFault>
    requires in_range { bits ≤ 64 }
    ensures gives { result ≡ unsigned bits bytes.now }
    ensures fits { IfOk result (λ r. r.0 < 2 ^ bits) }
    ensures within { IfOk result (λ r. (0 < r.1) × (r.1 ≤ length bytes.now)) }
{
    let Some((first, others)) = bytes.split_first() else {
        return Err(LebFault::Short);
    };
    let byte = u64::from(*first);
    if byte < 128 {
        return last_unsigned(byte, bits);
    }
    read_more(false, byte, others, bits)
}

/// The signed number of at most so many bits at the front, in two's complement, and how many bytes it takes.
#[inline(always)]
pub(crate) fn read_signed(bytes: &[u8], bits: u32) -> Result<(u64, usize), LebFault>
    requires in_range { bits ≤ 64 }
    requires some { 0 < bits }
    ensures gives { result ≡ signed bits bytes.now }
    ensures fits { IfOk result (λ r. r.0 < 2 ^ bits) }
    ensures within { IfOk result (λ r. (0 < r.1) × (r.1 ≤ length bytes.now)) }
{
    let Some((first, others)) = bytes.split_first() else {
        return Err(LebFault::Short);
    };
    let byte = u64::from(*first);
    if byte < 128 {
        return last_signed(byte, bits);
    }
    read_more(true, byte, others, bits)
}
