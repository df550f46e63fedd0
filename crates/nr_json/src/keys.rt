//! Account ids, hashes and public keys.

ghost use Rattle.std.specs.Prelude.{◌≡◌, List, ℕ, IfOk, string_bytes, option_map};
ghost use Rattle.nr_bytes.specs.Answers.{Gives};
ghost use Rattle.serde_json.specs.Data.{string};
ghost use Rattle.nr_json.specs.Keys.{id_in, id_of, sized, hash_json, hash_of, ed25519_in, key_text, key_in, key_json};
ghost use Rattle.nr_json.specs.Keys.{key_of};
ghost use Rattle.nr_json.specs.Plain.{or_fault};
ghost use Rattle.nr_json.specs.declared.fault.JsonFault.TheVariants.{Memory};
ghost use Rattle.nr_json.specs.declared.fault.Wrong.TheVariants.{NoAccountId};

use crate::base58::base58_of;
use crate::fault::{JsonFault, Wrong};
use crate::form::Form;
use hex::FromHex;
use nr_ids::{AccountId, Hash32, IdFault, PublicKey};
use serde_json::Value;
use std::alloc::{AllocError, Global};

fn id_in(alloc: Global, text: &str) -> Result<AccountId, JsonFault>
    ensures { Gives Memory result (or_fault NoAccountId (id_in text.now)) }
{
    match AccountId::parse(alloc, text.as_bytes()) {
        Ok(id) => Ok(id),
        Err(IdFault::Memory) => Err(JsonFault::Memory),
        Err(_) => Err(JsonFault::whole(alloc, Wrong::NoAccountId)),
    }
}

impl Form for AccountId {
    ghost json = { string };

    ghost reading = { id_of };

    fn from_json(alloc: Global, value: &Value) -> Result<AccountId, JsonFault> {
        match value.as_str() {
            Some(text) => id_in(alloc, text),
            None => Err(JsonFault::whole(alloc, Wrong::NoAccountId)),
        }
    }

    fn to_json(&self, alloc: Global) -> Result<Value, AllocError> {
        let bytes = Vec::from_slice(alloc, self.bytes())?;
        // An id is ASCII.
        let text = String::from_utf8(bytes).map_err(|_| AllocError)?;
        Ok(Value::from(text))
    }
}

/// `N` bytes, as twice as many hexadecimal digits.
fn sized<const N: usize>(text: &[u8]) -> Option<[u8; N]>
    ensures { result ≡ sized N text.now }
{
    match <[u8; N] as FromHex>::from_hex(text) {
        Ok(bytes) => Some(bytes),
        Err(_) => None,
    }
}

fn hash_in(text: &str) -> Option<Hash32>
    ensures { result ≡ option_map (λ (bytes : List ℕ). record { 0 = bytes }) (sized 32 text.now) }
{
    match sized::<32>(text.as_bytes()) {
        Some(bytes) => Some(Hash32(bytes)),
        None => None,
    }
}

impl Form for Hash32 {
    ghost json = { hash_json };

    ghost reading = { hash_of };

    fn from_json(alloc: Global, value: &Value) -> Result<Hash32, JsonFault> {
        match value.as_str().and_then(hash_in) {
            Some(hash) => Ok(hash),
            None => Err(JsonFault::whole(alloc, Wrong::NoHash)),
        }
    }

    fn to_json(&self, alloc: Global) -> Result<Value, AllocError> {
        Ok(Value::from(hex::encode(alloc, self.0)?))
    }
}

/// 32 bytes, as 64 hexadecimal digits or in base 58.
fn ed25519_in(digits: &[u8]) -> Option<[u8; 32]>
    ensures { result ≡ ed25519_in digits.now }
{
    if digits.len() == 64 {
        sized::<32>(digits)
    } else {
        base58_of(digits)
    }
}

fn key_in(text: &str) -> Option<PublicKey>
    ensures { result ≡ key_in text.now }
{
    let bytes = text.as_bytes();
    if let Some(digits) = bytes.strip_prefix(b"ed25519:".as_slice()) {
        return match ed25519_in(digits) {
            Some(key) => Some(PublicKey::Ed25519(key)),
            None => None,
        };
    }
    if let Some(digits) = bytes.strip_prefix(b"secp256k1:".as_slice()) {
        return match sized::<64>(digits) {
            Some(key) => Some(PublicKey::Secp256k1(key)),
            None => None,
        };
    }
    None
}

fn key_text(alloc: Global, key: &PublicKey) -> Result<String, AllocError>
    ensures { IfOk result (λ text. string_bytes text ≡ key_text key.now) }
{
    match key {
        PublicKey::Ed25519(key) => {
            let mut text = String::from_str(alloc, "ed25519:")?;
            text.push_str(hex::encode(alloc, *key)?.as_str())?;
            Ok(text)
        }
        PublicKey::Secp256k1(key) => {
            let mut text = String::from_str(alloc, "secp256k1:")?;
            text.push_str(hex::encode(alloc, *key)?.as_str())?;
            Ok(text)
        }
    }
}

impl Form for PublicKey {
    ghost json = { key_json };

    ghost reading = { key_of };

    fn from_json(alloc: Global, value: &Value) -> Result<PublicKey, JsonFault> {
        match value.as_str().and_then(key_in) {
            Some(key) => Ok(key),
            None => Err(JsonFault::whole(alloc, Wrong::NoKey)),
        }
    }

    fn to_json(&self, alloc: Global) -> Result<Value, AllocError> {
        Ok(Value::from(key_text(alloc, self)?))
    }
}
