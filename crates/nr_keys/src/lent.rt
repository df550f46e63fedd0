//! Access keys, read out of the bytes that spell them: the methods of a key for calls, which may
//! be many, are lent.

ghost use Rattle.std.specs.Prelude.{◌≡◌, ◌≤◌, length, drop, Some, IfOk, IsSome};
ghost use Rattle.nr_keys.specs.Lent.{calls_read, shown_calls, shown};

use crate::names::Names;
use nr_bytes::{Reader, Text};
use nr_columns::SpelledKey;
use nr_records::Spelled;
use std::alloc::{AllocError, Global};

/// An access key, of which the methods are lent.
#[derive(Drop)]
pub struct LentKey<'a> {
    /// The nonce of the last transaction that the key signed.
    pub nonce: u64,
    pub permission: LentPermission<'a>,
}

/// What a key may do.
#[derive(Drop)]
pub enum LentPermission<'a> {
    /// It may only call one contract.
    Call(LentCalls<'a>),
    /// It may do all that its account may.
    Full,
}

/// The calls that a key may make.
#[derive(Drop)]
pub struct LentCalls<'a> {
    /// What the key may still spend on gas, in the smallest unit of the ledger. `None` is no limit.
    pub allowance: Option<u128>,
    /// The name of the account that may be called. Any text may stand here.
    pub receiver: Text,
    /// The methods that may be called. None stands for each method.
    pub methods: Names<'a>,
}

/// The bytes behind the first of them.
pub(crate) fn behind(bytes: &[u8], at: usize) -> &[u8]
    requires { at ≤ length bytes.now }
    ensures { result.now ≡ drop at bytes.now }
{
    &bytes[at..]
}

/// The calls that the bytes permit.
fn calls_of(alloc: Global, bytes: &[u8]) -> Result<LentCalls<'_>, AllocError>
    requires { IsSome (calls_read bytes.now) }
    ensures { IfOk result (λ calls. calls_read bytes.now ≡ Some (shown_calls calls)) }
{
    let mut reader = Reader::new(bytes);
    let Ok(allowance) = Option::<u128>::read(alloc, &mut reader) else {
        return Err(AllocError);
    };
    let Ok(receiver) = Text::read(alloc, &mut reader) else {
        return Err(AllocError);
    };
    Ok(LentCalls {
        allowance,
        receiver,
        methods: Names::of(behind(bytes, reader.at())),
    })
}

/// The key that is spelled. It takes memory for the receiver's name alone.
///
/// # Errors
///
/// Where memory ran out.
pub fn lent_key<'a>(alloc: Global, spelled: &SpelledKey<'a>) -> Result<LentKey<'a>, AllocError>
    ensures { IfOk result (λ key. shown key ≡ spelled.now) }
{
    let bytes = spelled.bytes();
    let mut reader = Reader::new(bytes);
    let Ok(nonce) = reader.u64() else {
        return Err(AllocError);
    };
    let Ok(ordinal) = reader.u8() else {
        return Err(AllocError);
    };
    if ordinal != 0 {
        return Ok(LentKey {
            nonce,
            permission: LentPermission::Full,
        });
    }
    let calls = calls_of(alloc, behind(bytes, 9))?;
    Ok(LentKey {
        nonce,
        permission: LentPermission::Call(calls),
    })
}
