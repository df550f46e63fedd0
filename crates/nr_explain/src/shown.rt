//! The bytes of a line as a text, where people can read them as one.

ghost use Rattle.std.specs.Prelude.{◌≡◌, true, false, IfOk, MatchOption};
ghost use Rattle.std.specs.List.{list_all};
ghost use Rattle.nr_explain.specs.Shown.{is_printed, is_text, text_member, text_beside, beside_bytes};
ghost use Rattle.std.specs.Prelude.{Ok as Decoded};

use hex::FromHexError;
use serde_json::Value;
use std::alloc::{AllocError, Global};
use std::str;

fn is_printed(byte: u8) -> bool
    ensures { result ≡ is_printed byte }
{
    (32 <= byte && byte != 127) || byte == b'\t' || byte == b'\n' || byte == b'\r'
}

fn all_printed(bytes: &[u8]) -> bool
    ensures { result ≡ list_all is_printed bytes.now }
{
    bytes.iter().all(|byte| is_printed(*byte))
}

/// The text that the bytes are, where they are one.
fn text_of(bytes: &[u8]) -> Option<&str>
    ensures { MatchOption result (is_text bytes.now ≡ false)
        (λ text. (is_text bytes.now ≡ true) × (text.now ≡ bytes.now)) }
{
    match str::from_utf8(bytes) {
        Ok(text) => if all_printed(bytes) { Some(text) } else { None },
        Err(_) => None,
    }
}

/// A comma and the member `text`.
fn text_member(alloc: Global, text: &str) -> Result<Vec<u8>, AllocError>
    ensures { IfOk result (λ member. member.items ≡ text_member text.now) }
{
    let value = Value::try_from_str(alloc, text)?;
    let quoted = value.to_vec(alloc)?;
    let mut member = Vec::from_slice(alloc, b",\"text\":")?;
    member.extend_from_slice(&quoted)?;
    Ok(member)
}

fn text_beside(alloc: Global, bytes: &[u8]) -> Result<Vec<u8>, AllocError>
    ensures { IfOk result (λ member. member.items ≡ text_beside (Decoded bytes.now)) }
{
    match text_of(bytes) {
        Some(text) => text_member(alloc, text),
        None => Ok(Vec::new(alloc)),
    }
}

/// What stands beside bytes in hexadecimal: a comma and their text, where they are one.
pub(crate) fn beside_bytes(alloc: Global, word: &[u8]) -> Result<Vec<u8>, AllocError>
    ensures { IfOk result (λ member. member.items ≡ beside_bytes word.now) }
{
    match hex::decode(alloc, word) {
        Ok(bytes) => text_beside(alloc, &bytes),
        Err(FromHexError::OutOfMemory) => Err(AllocError),
        Err(_) => Ok(Vec::new(alloc)),
    }
}
