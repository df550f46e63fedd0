//! A record's SHA-256.

ghost use Rattle.std.specs.Prelude.{◌≡◌, IfOk};
ghost use Rattle.sha2.specs.Sha256.{sha256};

use crate::encoding::{encode, encode_in};
use crate::spelled::Spelled;
use nr_bytes::Writer;
use nr_ids::Hash32;
use sha2::{Digest, Sha256};
use std::alloc::{AllocError, Global};

/// The SHA-256 of the spelling.
///
/// # Errors
///
/// Where there is no memory for the spelling, or a count in it would be 2^32 or more.
pub fn hash_of<T: Spelled>(alloc: Global, value: &T) -> Result<Hash32, AllocError>
    ensures { IfOk result (λ hash. hash.0 ≡ sha256 (T.spelling value.now)) }
{
    let bytes = encode(alloc, value)?;
    Ok(Hash32(Sha256::digest(bytes.inner())))
}

/// As [`hash_of`], where the value is spelled in a writer that is used again.
///
/// # Errors
///
/// As of [`hash_of`].
pub fn hash_in<T: Spelled>(writer: &mut Writer, value: &T) -> Result<Hash32, AllocError>
    ensures { IfOk result (λ hash. hash.0 ≡ sha256 (T.spelling value.now)) }
{
    encode_in(writer, value)?;
    Ok(Hash32(Sha256::digest(writer.written())))
}
