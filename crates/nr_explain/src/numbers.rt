//! Words of digits, and names.

ghost use Rattle.std.specs.Prelude.{◌≡◌, ◌^◌};
ghost use Rattle.nr_explain.specs.Words.{number_below, is_name_byte, is_name, is_dash, are_bytes};

use nr_words::{all_hex_digits, is_numeral, large_number};
use std::str;

fn small_number(word: &str) -> Option<u64>
    ensures { result ≡ number_below (2 ^ 64) word.now }
{
    if !is_numeral(word.as_bytes()) {
        return None;
    }
    match word.parse::<u64>() {
        Ok(number) => Some(number),
        Err(_) => None,
    }
}

/// The number of 64 bits that a word spells.
pub(crate) fn number_of(word: &[u8]) -> Option<u64>
    ensures { result ≡ number_below (2 ^ 64) word.now }
{
    match str::from_utf8(word) {
        Ok(word) => small_number(word),
        Err(_) => None,
    }
}

/// The number of 128 bits that a word spells.
pub(crate) fn amount_of(word: &[u8]) -> Option<u128>
    ensures { result ≡ number_below (2 ^ 128) word.now }
{
    match str::from_utf8(word) {
        Ok(word) => large_number(word),
        Err(_) => None,
    }
}

fn is_name_byte(byte: u8) -> bool
    ensures { result ≡ is_name_byte byte }
{
    33 <= byte && (byte <= 126 && byte != 34)
}

/// A name in visible characters, without quotes. It may be empty.
pub(crate) fn is_name(word: &[u8]) -> bool
    ensures { result ≡ is_name word.now }
{
    word.iter().all(|byte| is_name_byte(*byte))
}

pub(crate) fn is_dash(word: &[u8]) -> bool
    ensures { result ≡ is_dash word.now }
{
    word == b"-".as_slice()
}

/// Bytes in hexadecimal, and a dash for none.
pub(crate) fn are_bytes(word: &[u8]) -> bool
    ensures { result ≡ are_bytes word.now }
{
    is_dash(word) || (word.len() != 0 && (word.len() % 2 == 0 && all_hex_digits(word)))
}
