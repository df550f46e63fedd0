//! The bytes of a key whose nonce and allowance are others: what stands behind these is copied as
//! it is.

ghost use Rattle.std.specs.Prelude.{◌≡◌, ◌++◌, ◌^◌, ◌<◌, ◌≤◌, length, drop, Some, IfOk, OnOk};
ghost use Rattle.nr_bytes.specs.Numbers.{little};
ghost use Rattle.nr_bytes.specs.Spelling.{Below};
ghost use Rattle.nr_records.specs.Options.{option_bytes, IsOption};
ghost use Rattle.nr_columns.specs.SpelledKeys.{key_read};
ghost use Rattle.nr_keys.specs.Changed.{front_bytes, front_length, FitsFront, changed};
ghost use Rattle.nr_keys.specs.Lent.{shown_permission, shown};

use crate::lent::{LentKey, LentPermission, behind};
use byteorder::{ByteOrder, LittleEndian};
use nr_bytes::Blob;
use nr_columns::SpelledKey;
use std::alloc::{AllocError, Global};

#[tactic(auto, using(nr_bytes::proofs::Numbers::written_8))]
fn put_nonce(spelled: &mut Vec<u8>, nonce: u64) -> Result<(), AllocError>
    ensures appends { OnOk result (spelled.new.items ≡ spelled.old.items ++ little 8 nonce) }
    ensures in_range { OnOk result (nonce < 256 ^ 8) }
{
    let mut field = [0; 8];
    LittleEndian::write_u64(&mut field, nonce);
    spelled.extend_from_slice(&field)?;
    Ok(())
}

#[tactic(auto, using(nr_bytes::proofs::Numbers::written_16))]
fn put_most(spelled: &mut Vec<u8>, most: u128) -> Result<(), AllocError>
    ensures appends { OnOk result (spelled.new.items ≡ spelled.old.items ++ little 16 most) }
    ensures in_range { OnOk result (most < 256 ^ 16) }
{
    let mut field = [0; 16];
    LittleEndian::write_u128(&mut field, most);
    spelled.extend_from_slice(&field)?;
    Ok(())
}

fn put_allowance(spelled: &mut Vec<u8>, allowance: Option<u128>) -> Result<(), AllocError>
    ensures appends { OnOk result (spelled.new.items ≡ spelled.old.items ++ option_bytes (little 16) allowance) }
    ensures in_range { OnOk result (IsOption (Below (256 ^ 16)) allowance) }
{
    let Some(most) = allowance else {
        spelled.push(0)?;
        return Ok(());
    };
    spelled.push(1)?;
    put_most(spelled, most)?;
    Ok(())
}

fn put_front(
    spelled: &mut Vec<u8>,
    permission: &LentPermission<'_>,
    allowance: Option<u128>,
) -> Result<(), AllocError>
    ensures appends { OnOk result (spelled.new.items
        ≡ spelled.old.items ++ front_bytes allowance (shown_permission permission.now)) }
    ensures in_range { OnOk result (FitsFront allowance (shown_permission permission.now)) }
{
    match permission {
        LentPermission::Call(_) => {
            spelled.push(0)?;
            put_allowance(spelled, allowance)?;
            Ok(())
        }
        LentPermission::Full => {
            spelled.push(1)?;
            Ok(())
        }
    }
}

/// How many bytes of a key stand before what stays.
fn front_length(permission: &LentPermission<'_>) -> usize
    ensures { result ≡ front_length (shown_permission permission.now) }
{
    match permission {
        LentPermission::Call(calls) => match calls.allowance {
            Some(_) => 26,
            None => 10,
        },
        LentPermission::Full => 9,
    }
}

/// The bytes with another front. Where that is no longer than theirs, they take memory once.
fn with_front(
    alloc: Global,
    bytes: &[u8],
    permission: &LentPermission<'_>,
    nonce: u64,
    allowance: Option<u128>,
) -> Result<Vec<u8>, AllocError>
    requires { front_length (shown_permission permission.now) ≤ length bytes.now }
    ensures bytes { IfOk result (λ spelled. spelled.items
        ≡ (little 8 nonce ++ front_bytes allowance (shown_permission permission.now))
        ++ drop (front_length (shown_permission permission.now)) bytes.now) }
    ensures nonce_in_range { OnOk result (nonce < 256 ^ 8) }
    ensures in_range { OnOk result (FitsFront allowance (shown_permission permission.now)) }
{
    let mut spelled = Vec::with_capacity(alloc, bytes.len())?;
    put_nonce(&mut spelled, nonce)?;
    put_front(&mut spelled, permission, allowance)?;
    let length = front_length(permission);
    let rest = behind(bytes, length);
    spelled.extend_from_slice(rest)?;
    Ok(spelled)
}

/// The bytes that spell a key with another nonce and, where it is one for calls, with another
/// allowance. Beside the key it takes what was read of it.
///
/// # Errors
///
/// Where memory ran out.
pub fn changed(
    alloc: Global,
    key: &SpelledKey<'_>,
    access: &LentKey<'_>,
    nonce: u64,
    allowance: Option<u128>,
) -> Result<Blob, AllocError>
    requires { shown access.now ≡ key.now }
    ensures { IfOk result (λ bytes. key_read bytes ≡ Some (changed nonce allowance (shown access.now))) }
{
    let bytes = key.bytes();
    let spelled = with_front(alloc, bytes, &access.permission, nonce, allowance)?;
    Ok(Blob::of(spelled))
}
