//! The keys of the state trie: a byte for the kind of the entry, and then whose it is.

ghost use Rattle.std.specs.Prelude.{◌≡◌, ◌∷◌, ◌++◌, IfOk, OnOk, Some, None, []};
ghost use Rattle.nr_bytes.specs.Numbers.{little, number};
ghost use Rattle.nr_ids.specs.Grammar.{id_fault};
ghost use Rattle.nr_ids.specs.Keys.{key_bytes, IsKey};
ghost use Rattle.nr_columns.specs.Keys.{account_key, code_key, access_key_key, datum_key, column_key, delayed_key};
ghost use Rattle.nr_columns.specs.Keys.{owner_prefixes};
ghost use Rattle.nr_columns.specs.View.{at_first, key_of_rest};

use crate::key_slot::KeySlot;
use nr_bytes::{Blob, List, Writer};
use nr_ids::{AccountId, PublicKey};
use nr_records::Spelled;
use std::alloc::{AllocError, Global};

/// The byte before the id in the key of an account.
pub(crate) const ACCOUNT: u8 = 0;

/// The byte before the id in the key of an account's code.
const CODE: u8 = 1;

/// The byte before the id, and before the public key, in the key of an access key.
pub(crate) const ACCESS: u8 = 2;

/// The byte before the receiver in the key of a received datum.
pub(crate) const RECEIVED: u8 = 3;

/// The byte before the receiver in the key of a datum that is waited for.
pub(crate) const AWAITED: u8 = 4;

/// The byte before the receiver in the key of a count of missing inputs.
pub(crate) const MISSING: u8 = 5;

/// The byte before the receiver in the key of a postponed receipt.
pub(crate) const POSTPONED: u8 = 6;

/// The key of the delayed queue's numbers, and the byte before the number in the key of a delayed
/// receipt.
pub(crate) const DELAYED: u8 = 7;

/// The byte before the id in the key of a datum.
pub(crate) const DATUM: u8 = 9;

/// The trie key of an account: the byte 0 and the id.
///
/// # Errors
///
/// Where memory ran out.
pub fn account_key(alloc: Global, id: &AccountId) -> Result<Blob, AllocError>
    ensures text { IfOk result (λ text. text ≡ account_key id.now) }
    ensures valid { OnOk result (id_fault id.now ≡ None) }
{
    let bytes = id.bytes();
    let mut writer = Writer::with_room(alloc, bytes.len() + 1)?;
    writer.put_u8(ACCOUNT)?;
    writer.put_raw(bytes)?;
    Ok(writer.finish())
}

/// The trie key of an account's code: the byte 1 and the id.
///
/// # Errors
///
/// Where memory ran out.
pub fn code_key(alloc: Global, id: &AccountId) -> Result<Blob, AllocError>
    ensures text { IfOk result (λ text. text ≡ code_key id.now) }
    ensures valid { OnOk result (id_fault id.now ≡ None) }
{
    let bytes = id.bytes();
    let mut writer = Writer::with_room(alloc, bytes.len() + 1)?;
    writer.put_u8(CODE)?;
    writer.put_raw(bytes)?;
    Ok(writer.finish())
}

/// The trie key of an access key: the byte 2, the id, the byte 2 and the spelling of the public
/// key.
///
/// # Errors
///
/// Where memory ran out.
pub fn access_key(alloc: Global, id: &AccountId, key: &PublicKey) -> Result<Blob, AllocError>
    ensures { IfOk result (λ text. text ≡ access_key_key (id.now, key.now)) }
{
    let bytes = id.bytes();
    let mut writer = Writer::with_room(alloc, bytes.len() + 35)?;
    writer.put_u8(ACCESS)?;
    writer.put_raw(bytes)?;
    writer.put_u8(ACCESS)?;
    key.write(&mut writer)?;
    Ok(writer.finish())
}

/// The trie key of a datum of an account: the byte 9, the id, a comma and the datum's own key.
///
/// # Errors
///
/// Where memory ran out.
pub fn datum_key(alloc: Global, id: &AccountId, key: &[u8]) -> Result<Blob, AllocError>
    ensures { IfOk result (λ text. text ≡ datum_key (id.now, key.now)) }
{
    pair_key(alloc, DATUM, id, key)
}

// A column's byte and an id, in place.
fn id_slot(column: u8, id: &AccountId) -> Result<KeySlot, AllocError>
    ensures text { IfOk result (λ text. text ≡ column ∷ id.now) }
    ensures valid { OnOk result (id_fault id.now ≡ None) }
{
    let bytes = id.bytes();
    let mut slot = KeySlot::new();
    slot.put(&[column])?;
    slot.put(bytes)?;
    Ok(slot)
}

/// The key of an account, in place.
pub(crate) fn account_slot(id: &AccountId) -> Result<KeySlot, AllocError>
    ensures text { IfOk result (λ text. text ≡ account_key id.now) }
    ensures valid { OnOk result (id_fault id.now ≡ None) }
{
    id_slot(ACCOUNT, id)
}

/// The key of an account's code, in place.
pub(crate) fn code_slot(id: &AccountId) -> Result<KeySlot, AllocError>
    ensures text { IfOk result (λ text. text ≡ code_key id.now) }
    ensures valid { OnOk result (id_fault id.now ≡ None) }
{
    id_slot(CODE, id)
}

// Puts the spelling of a public key behind the bytes.
fn put_key(slot: &mut KeySlot, key: &PublicKey) -> Result<(), AllocError>
    ensures spelled { OnOk result (slot.new ≡ slot.old ++ key_bytes key.now) }
    ensures fits { OnOk result (IsKey key.now) }
{
    match key {
        PublicKey::Ed25519(bytes) => {
            slot.put(&[0])?;
            slot.put(bytes)
        }
        PublicKey::Secp256k1(bytes) => {
            slot.put(&[1])?;
            slot.put(bytes)
        }
    }
}

/// The key of an access key, in place, from which the owner and the public key can be told.
#[tactic(auto, using(crate::proofs::ReadBack::rest_there))]
pub(crate) fn owner_slot(id: &AccountId, key: &PublicKey) -> Result<KeySlot, AllocError>
    ensures text { IfOk result (λ text. text ≡ access_key_key (id.now, key.now)) }
    ensures there { OnOk result (key_of_rest (id.now ++ 2 ∷ key_bytes key.now) ≡ Some (id.now, key.now)) }
    ensures valid { OnOk result (id_fault id.now ≡ None) }
    ensures fits { OnOk result (IsKey key.now) }
{
    let bytes = id.bytes();
    let mut slot = KeySlot::new();
    slot.put(&[ACCESS])?;
    slot.put(bytes)?;
    slot.put(&[ACCESS])?;
    put_key(&mut slot, key)?;
    Ok(slot)
}

/// A column's byte, an id, a comma and a hash, in place. The id and the hash can be told from it.
#[tactic(auto, using(crate::proofs::ReadBack::comma_there))]
pub(crate) fn pair_slot(column: u8, id: &AccountId, rest: &[u8; 32]) -> Result<KeySlot, AllocError>
    ensures text { IfOk result (λ text. text ≡ column_key column id.now rest.now) }
    ensures there { OnOk result (at_first 44 (id.now ++ 44 ∷ rest.now) ≡ Some (id.now, rest.now)) }
    ensures valid { OnOk result (id_fault id.now ≡ None) }
{
    let bytes = id.bytes();
    let mut slot = KeySlot::new();
    slot.put(&[column])?;
    slot.put(bytes)?;
    slot.put(&[b','])?;
    slot.put(rest)?;
    Ok(slot)
}

/// A column's byte, an id, a comma and the rest. The id and the rest can be told from it.
#[tactic(auto, using(crate::proofs::ReadBack::comma_there))]
pub(crate) fn pair_key(
    alloc: Global,
    column: u8,
    id: &AccountId,
    rest: &[u8],
) -> Result<Blob, AllocError>
    ensures text { IfOk result (λ text. text ≡ column_key column id.now rest.now) }
    ensures there { OnOk result (at_first 44 (id.now ++ 44 ∷ rest.now) ≡ Some (id.now, rest.now)) }
    ensures valid { OnOk result (id_fault id.now ≡ None) }
{
    let bytes = id.bytes();
    let room = rest.len().saturating_add(bytes.len() + 2);
    let mut writer = Writer::with_room(alloc, room)?;
    writer.put_u8(column)?;
    writer.put_raw(bytes)?;
    writer.put_u8(b',')?;
    writer.put_raw(rest)?;
    Ok(writer.finish())
}

/// What the keys of an owner in a column begin with: the column's byte, the id and the mark.
pub(crate) fn front(alloc: Global, column: u8, id: &AccountId, mark: u8) -> Result<Blob, AllocError>
    ensures front { IfOk result (λ front. front ≡ column ∷ (id.now ++ mark ∷ [])) }
    ensures valid { OnOk result (id_fault id.now ≡ None) }
{
    let bytes = id.bytes();
    let mut writer = Writer::with_room(alloc, bytes.len() + 2)?;
    writer.put_u8(column)?;
    writer.put_raw(bytes)?;
    writer.put_u8(mark)?;
    Ok(writer.finish())
}

/// What the keys of all that an account owns begin with, but for the account and its code, which
/// have one key each: of its access keys, of the data that it received and waits for, of its counts
/// of missing inputs, of its postponed receipts, and of its own data.
///
/// # Errors
///
/// Where memory ran out.
pub fn owner_prefixes(alloc: Global, id: &AccountId) -> Result<List<Blob>, AllocError>
    ensures { IfOk result (λ prefixes. prefixes ≡ owner_prefixes id.now) }
{
    let mut prefixes = Vec::new(alloc);
    prefixes.push(front(alloc, ACCESS, id, ACCESS)?)?;
    prefixes.push(front(alloc, RECEIVED, id, b',')?)?;
    prefixes.push(front(alloc, AWAITED, id, b',')?)?;
    prefixes.push(front(alloc, MISSING, id, b',')?)?;
    prefixes.push(front(alloc, POSTPONED, id, b',')?)?;
    prefixes.push(front(alloc, DATUM, id, b',')?)?;
    Ok(List::of(prefixes))
}

/// The key of a delayed receipt, from which its number can be told.
#[tactic(auto, using(crate::proofs::ReadBack::number_there))]
pub(crate) fn delayed_key(alloc: Global, ordinal: u64) -> Result<Blob, AllocError>
    ensures text { IfOk result (λ text. text ≡ delayed_key ordinal) }
    ensures there { Some (number (little 8 ordinal)) ≡ Some ordinal }
{
    let mut writer = Writer::with_room(alloc, 9)?;
    writer.put_u8(DELAYED)?;
    writer.put_u64(ordinal)?;
    Ok(writer.finish())
}
