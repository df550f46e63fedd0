//! Numbers among words.

ghost use Rattle.std.specs.Prelude.{◌≡◌, ◌≤◌, ◌^◌, IfSome};
ghost use Rattle.std.specs.List.{list_all};
ghost use Rattle.nr_words.specs.Numbers.{has_no_leading_zero, is_digit, is_numeral, number_below, number_in};

pub(crate) fn is_digit(byte: u8) -> bool
    ensures { result ≡ is_digit byte }
{
    48 <= byte && byte <= 57
}

// Not empty, and no zero before further digits.
fn has_no_leading_zero(word: &[u8]) -> bool
    ensures { result ≡ has_no_leading_zero word.now }
{
    match word {
        [] => false,
        [_] => true,
        [first, ..] => *first != b'0',
    }
}

fn all_digits(word: &[u8]) -> bool
    ensures { result ≡ list_all is_digit word.now }
{
    word.iter().all(|byte| is_digit(*byte))
}

/// Whether a word is decimal digits without a leading zero.
pub fn is_numeral(word: &[u8]) -> bool
    ensures { result ≡ is_numeral word.now }
{
    has_no_leading_zero(word) && all_digits(word)
}

/// The same of a word that is text.
pub(crate) fn number_of(least: u64, most: u64, word: &str) -> Option<u64>
    ensures number { result ≡ number_in least most word.now }
    ensures within { IfSome result (λ number. (least ≤ number) × (number ≤ most)) }
{
    if !is_numeral(word.as_bytes()) {
        return None;
    }
    match word.parse::<u64>() {
        Ok(number) => {
            if least <= number && number <= most {
                Some(number)
            } else {
                None
            }
        }
        Err(_) => None,
    }
}

/// The number of 128 bits that a word spells in decimal digits without leading zeros. Other words give nothing.
pub fn large_number(word: &str) -> Option<u128>
    ensures { result ≡ number_below (2 ^ 128) word.now }
{
    if !is_numeral(word.as_bytes()) {
        return None;
    }
    match word.parse::<u128>() {
        Ok(number) => Some(number),
        Err(_) => None,
    }
}

/// The number that the bytes of a word spell in decimal digits without leading zeros, where it is one from `least` to
/// `most`. Other words give nothing.
pub fn number_in(least: u64, most: u64, word: &[u8]) -> Option<u64>
    ensures { result ≡ number_in least most word.now }
{
    match str::from_utf8(word) {
        Ok(word) => number_of(least, most, word),
        Err(_) => None,
    }
}
