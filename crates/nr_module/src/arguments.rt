//! The arguments and the tokens of a call, as words.

ghost use Rattle.std.specs.Prelude.{◌≡◌, IfOk};
ghost use Rattle.hex.specs.Hex.{decode_of};
ghost use Rattle.nr_module.specs.Arguments.{args_in, deposit_in, without_fault};

use hex::FromHexError;
use nr_bytes::Blob;
use nr_words::large_number;
use std::alloc::{AllocError, Global};

/// The bytes that digits of base 16 spell, two for each.
fn bytes_of(alloc: Global, digits: &[u8]) -> Result<Option<Blob>, AllocError>
    ensures { IfOk result (λ bytes. bytes ≡ without_fault (decode_of digits.now)) }
{
    match hex::decode(alloc, digits) {
        Ok(bytes) => Ok(Some(Blob::of(bytes))),
        Err(FromHexError::OutOfMemory) => Err(AllocError),
        Err(_) => Ok(None),
    }
}

/// The arguments that a word is: behind `hex:` the bytes of digits, else its own.
///
/// # Errors
///
/// Where memory runs out.
#[tactic(auto, unfolding(crate::specs::Arguments::args_in))]
pub(crate) fn args_of(alloc: Global, word: &str) -> Result<Option<Blob>, AllocError>
    ensures { IfOk result (λ args. args ≡ args_in word.now) }
{
    let bytes = word.as_bytes();
    match bytes.strip_prefix(b"hex:".as_slice()) {
        Some(digits) => bytes_of(alloc, digits),
        None => {
            let bytes = Vec::from_slice(alloc, bytes)?;
            Ok(Some(Blob::of(bytes)))
        }
    }
}

/// The number of 128 bits that a word spells.
#[tactic(auto, unfolding(crate::specs::Arguments::deposit_in))]
pub(crate) fn deposit_of(word: &str) -> Option<u128>
    ensures { result ≡ deposit_in word.now }
{
    large_number(word)
}
