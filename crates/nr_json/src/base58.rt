//! 32 bytes in base 58.

ghost use Rattle.std.specs.Prelude.{◌≡◌, ◌<◌, ◌+◌, ◌*◌, ◌^◌, ◌==◌, ◌++◌, Some, not, option_map, position};
ghost use Rattle.std.specs.Int.{w128, to_be_bytes};
ghost use Rattle.nr_json.specs.Base58.{alphabet, digit_of, with_digit, with_digits, number_bytes, count_ahead};
ghost use Rattle.nr_json.specs.Base58.{if_whole, base58_of, wide_in};

/// Half of the bits of a half.
const QUARTER: u128 = 0x1_0000_0000_0000_0000;

/// A number below 2^256: a multiple of 2^128, and what is below it.
#[derive(Clone, Copy, Debug)]
pub(crate) struct Wide {
    pub(crate) high: u128,
    pub(crate) low: u128,
}

#[tactic(auto, unfolding(crate::specs::Base58::alphabet))]
fn alphabet() -> &'static [u8]
    ensures { result.now ≡ alphabet }
{
    b"123456789ABCDEFGHJKLMNPQRSTUVWXYZabcdefghijkmnopqrstuvwxyz"
}

/// What a character counts.
#[tactic(auto, unfolding(crate::specs::Base58::digit_of))]
fn digit_of(character: u8) -> Option<usize>
    ensures { result ≡ digit_of character }
{
    alphabet().iter().position(|other| *other == character)
}

/// 58 times the number, and so many more: the multiple of 2^128, and what is below it.
fn times58(number: u128, more: u128) -> (u128, u128)
    requires { more < 58 }
    ensures { result.0 * 2 ^ 128 + result.1 ≡ number * 58 + more }
{
    let low = number % QUARTER * 58 + more;
    let high = number / QUARTER * 58 + low / QUARTER;
    (high / QUARTER, high % QUARTER * QUARTER + low % QUARTER)
}

/// A number with a digit behind it, where that is below 2^256.
fn with_value(number: Wide, digit: u128) -> Option<Wide>
    requires { digit < 58 }
    ensures { option_map wide_in result ≡ with_digit (wide_in number) (Some digit) }
{
    let (carry, low) = times58(number.low, digit);
    let product = number.high.checked_mul(58)?;
    let high = product.checked_add(carry)?;
    Some(Wide { high, low })
}

/// The same with what a character counts.
fn with_digit(number: Wide, character: u8) -> Option<Wide>
    ensures { option_map wide_in result ≡ with_digit (wide_in number) (digit_of character) }
{
    match digit_of(character) {
        Some(digit) => with_value(number, digit as u128),
        None => None,
    }
}

fn with_digits(text: &[u8]) -> Option<Wide>
    ensures { option_map wide_in result ≡ with_digits 0 text.now }
{
    let mut number = Wide { high: 0, low: 0 };
    for character in text {
        match with_digit(number, *character) {
            Some(next) => number = next,
            None => return None,
        }
    }
    Some(number)
}

/// The bytes of two halves, the highest first.
fn halves_bytes(high: u128, low: u128) -> [u8; 32]
    ensures { result ≡ to_be_bytes w128 high ++ to_be_bytes w128 low }
{
    let mut bytes = [0u8; 32];
    bytes[..16].copy_from_slice(&high.to_be_bytes());
    bytes[16..].copy_from_slice(&low.to_be_bytes());
    bytes
}

fn number_bytes(number: Wide) -> [u8; 32]
    ensures { result ≡ number_bytes (wide_in number) }
{
    halves_bytes(number.high, number.low)
}

/// Where another byte comes first.
fn first_other(byte: u8, bytes: &[u8]) -> Option<usize>
    ensures { result ≡ position (λ b. not (b == byte)) bytes.now }
{
    bytes.iter().position(|other| *other != byte)
}

/// How often this byte stands at the front.
fn count_ahead(byte: u8, bytes: &[u8]) -> usize
    ensures { result ≡ count_ahead byte bytes.now }
{
    match first_other(byte, bytes) {
        Some(count) => count,
        None => bytes.len(),
    }
}

fn if_whole(text: &[u8], bytes: [u8; 32]) -> Option<[u8; 32]>
    ensures { result ≡ if_whole text.now bytes }
{
    if count_ahead(b'1', text) == count_ahead(0, &bytes) {
        Some(bytes)
    } else {
        None
    }
}

/// The bytes that the text spells.
pub(crate) fn base58_of(text: &[u8]) -> Option<[u8; 32]>
    ensures { result ≡ base58_of text.now }
{
    match with_digits(text) {
        Some(number) => if_whole(text, number_bytes(number)),
        None => None,
    }
}
