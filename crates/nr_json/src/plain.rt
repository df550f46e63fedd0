//! Numbers, amounts, texts and bytes.

ghost use Rattle.std.specs.Prelude.{◌≡◌};
ghost use Rattle.std.specs.List.{list_all};
ghost use Rattle.hex.specs.Hex.{decode_of};
ghost use Rattle.nr_bytes.specs.Answers.{Gives};
ghost use Rattle.serde_json.specs.Data.{string};
ghost use Rattle.nr_json.specs.Plain.{number_json, number_of, is_digit, is_numeral, amount_in, amount_json, amount_of};
ghost use Rattle.nr_json.specs.Plain.{text_of, or_fault, without_fault, bytes_json, bytes_of};
ghost use Rattle.nr_json.specs.declared.fault.JsonFault.TheVariants.{Memory};
ghost use Rattle.nr_json.specs.declared.fault.Wrong.TheVariants.{NoBytes};

use crate::fault::{JsonFault, Wrong};
use crate::form::Form;
use hex::FromHexError;
use nr_bytes::{Blob, Text};
use serde_json::Value;
use std::alloc::{AllocError, Global};

impl Form for u64 {
    ghost json = { number_json };

    ghost reading = { number_of };

    fn from_json(alloc: Global, value: &Value) -> Result<u64, JsonFault> {
        match value.as_u64() {
            Some(number) => Ok(number),
            None => Err(JsonFault::whole(alloc, Wrong::NoNumber)),
        }
    }

    fn to_json(&self, _alloc: Global) -> Result<Value, AllocError> {
        Ok(Value::from(*self))
    }
}

fn is_digit(byte: u8) -> bool
    ensures { result ≡ is_digit byte }
{
    48 <= byte && byte <= 57
}

fn all_digits(text: &[u8]) -> bool
    ensures { result ≡ list_all is_digit text.now }
{
    text.iter().all(|byte| is_digit(*byte))
}

/// Decimal digits, at least one.
fn is_numeral(text: &[u8]) -> bool
    ensures { result ≡ is_numeral text.now }
{
    0 < text.len() && all_digits(text)
}

fn amount_in(text: &str) -> Option<u128>
    ensures { result ≡ amount_in text.now }
{
    if !is_numeral(text.as_bytes()) {
        return None;
    }
    match text.parse::<u128>() {
        Ok(amount) => Some(amount),
        Err(_) => None,
    }
}

impl Form for u128 {
    ghost json = { amount_json };

    ghost reading = { amount_of };

    fn from_json(alloc: Global, value: &Value) -> Result<u128, JsonFault> {
        match value.as_str().and_then(amount_in) {
            Some(amount) => Ok(amount),
            None => Err(JsonFault::whole(alloc, Wrong::NoAmount)),
        }
    }

    fn to_json(&self, alloc: Global) -> Result<Value, AllocError> {
        Ok(Value::from(format!(in alloc; "{self}")?))
    }
}

impl Form for Text {
    ghost json = { string };

    ghost reading = { text_of };

    fn from_json(alloc: Global, value: &Value) -> Result<Text, JsonFault> {
        match value.as_str() {
            Some(text) => Ok(Text::of(String::from_str(alloc, text)?)),
            None => Err(JsonFault::whole(alloc, Wrong::NoText)),
        }
    }

    fn to_json(&self, alloc: Global) -> Result<Value, AllocError> {
        Value::try_from_str(alloc, self.inner())
    }
}

/// The bytes of a text of hexadecimal digits. Nothing is given too where memory ran out.
fn bytes_in(alloc: Global, text: &str) -> Result<Blob, JsonFault>
    ensures { Gives Memory result (or_fault NoBytes (without_fault (decode_of text.now))) }
{
    match hex::decode(alloc, text) {
        Ok(bytes) => Ok(Blob::of(bytes)),
        Err(FromHexError::OutOfMemory) => Err(JsonFault::Memory),
        Err(_) => Err(JsonFault::whole(alloc, Wrong::NoBytes)),
    }
}

impl Form for Blob {
    ghost json = { bytes_json };

    ghost reading = { bytes_of };

    fn from_json(alloc: Global, value: &Value) -> Result<Blob, JsonFault> {
        match value.as_str() {
            Some(text) => bytes_in(alloc, text),
            None => Err(JsonFault::whole(alloc, Wrong::NoBytes)),
        }
    }

    fn to_json(&self, alloc: Global) -> Result<Value, AllocError> {
        Ok(Value::from(hex::encode(alloc, self.inner())?))
    }
}
