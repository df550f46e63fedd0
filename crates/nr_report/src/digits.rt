//! Hashes and bytes as words of a line.

ghost use Rattle.std.specs.Prelude.{◌≡◌, IfOk, string_bytes};
ghost use Rattle.nr_report.specs.Lines.{hash_word, bytes_word};

use nr_ids::Hash32;
use std::alloc::{AllocError, Global};

/// A hash in hexadecimal.
///
/// # Errors
///
/// Where memory ran out.
#[tactic(auto, unfolding(crate::specs::Lines::hash_word))]
pub fn hash_digits(alloc: Global, hash: &Hash32) -> Result<String, AllocError>
    ensures { IfOk result (λ digits. string_bytes digits ≡ hash_word hash.now) }
{
    hex::encode(alloc, hash.0)
}

/// The digits of a hash in hexadecimal. They take no memory.
#[tactic(auto, unfolding(crate::specs::Lines::hash_word))]
pub(crate) fn digits_of(hash: &Hash32) -> Result<[u8; 64], AllocError>
    ensures { IfOk result (λ digits. digits ≡ hash_word hash.now) }
{
    let mut digits = [0; 64];
    match hex::encode_to_slice(hash.0, &mut digits) {
        Ok(()) => Ok(digits),
        Err(_) => Err(AllocError),
    }
}

/// Digits as a text.
pub(crate) fn word_of(digits: &[u8; 64]) -> Result<&str, AllocError>
    ensures { IfOk result (λ word. word.now ≡ digits.now) }
{
    match str::from_utf8(digits) {
        Ok(word) => Ok(word),
        Err(_) => Err(AllocError),
    }
}

/// Bytes in hexadecimal, and a dash for none.
///
/// # Errors
///
/// Where memory ran out.
#[tactic(auto, unfolding(crate::specs::Lines::bytes_word))]
pub fn byte_digits(alloc: Global, bytes: &[u8]) -> Result<String, AllocError>
    ensures { IfOk result (λ digits. string_bytes digits ≡ bytes_word bytes.now) }
{
    if bytes.is_empty() {
        String::from_str(alloc, "-")
    } else {
        hex::encode(alloc, bytes)
    }
}
