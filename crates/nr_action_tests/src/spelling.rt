//! The bytes of a key that signed a transaction, and of one that a refund came back to.

use crate::conversions::{Asked, convert_in};
use crate::frames::{Has, Sent, apply_in, state_of};
use crate::refuser::Refuser;
use crate::setting::{Ask, KEY, State, account_of, id_of, priced};
use nr_config::Config;
use std::alloc::{AllocError, Global};

/// Whether alice has a key that these bytes spell.
fn has_key(alloc: Global, state: &State, bytes: &[u8]) -> Result<bool, AllocError> {
    let id = id_of(alloc, b"alice")?;
    match state.spelled_key(&id, &KEY)? {
        Some(key) => Ok(key.bytes() == bytes),
        None => Ok(false),
    }
}

/// Whether these bytes spell alice's key once it signed a call of `go` with 90 gas, which costs 100.
fn try_signing(alloc: Global, has: Has, bytes: &[u8]) -> Result<bool, AllocError> {
    let id = id_of(alloc, b"alice")?;
    let config = priced(alloc);
    let mut state = state_of(alloc, &config, &id, &account_of(1000), has)?;
    let asked = Asked {
        signer: b"alice",
        receiver: b"con",
        nonce: 258,
        asks: &[Ask::Call("go", 90, 0)],
    };
    convert_in(alloc, &config, &mut state, asked)?;
    has_key(alloc, &state, bytes)
}

/// Whether these bytes spell alice's key once a refund of 90 came.
fn try_refunding(alloc: Global, has: Has, bytes: &[u8]) -> Result<bool, AllocError> {
    let id = id_of(alloc, b"alice")?;
    let caller = Refuser {
        config: Config::free(),
        kind: 0,
        part: 0,
        burnt: 0,
    };
    let mut state = state_of(alloc, &caller.config, &id, &account_of(1000), has)?;
    let sent = Sent {
        predecessor: b"system",
        receiver: b"alice",
        asks: &[Ask::Transfer(90)],
    };
    apply_in(alloc, &mut state, &caller, sent)?;
    has_key(alloc, &state, bytes)
}

/// The same; false where memory runs out.
fn signs(alloc: Global, has: Has, bytes: &[u8]) -> bool {
    try_signing(alloc, has, bytes).unwrap_or(false)
}

fn is_refunded(alloc: Global, has: Has, bytes: &[u8]) -> bool {
    try_refunding(alloc, has, bytes).unwrap_or(false)
}

#[test]
fn a_key_that_signed_has_another_nonce_and_less_to_spend(rt: HostRuntime) {
    let alloc = rt.alloc();
    let methods = b"\x02\x01\0\0\0\0\0\0\0\x01\0\0\0\0\0\0\0\0\0\0\0\0\0\0\0\0\
        \x03\0\0\0con\x03\0\0\0\x02\0\0\0go\x04\0\0\0halt\0\0\0\0";
    assert!(rt; signs(alloc, Has::MethodsKey(&["go", "halt", ""]), methods));
    let open = b"\x02\x01\0\0\0\0\0\0\0\0\x03\0\0\0con\x01\0\0\0\x02\0\0\0go";
    assert!(rt; signs(alloc, Has::OpenKey, open));
    let full = b"\x02\x01\0\0\0\0\0\0\x01";
    assert!(rt; signs(alloc, Has::FullKey, full));
}

#[test]
fn a_refund_changes_an_allowance_alone(rt: HostRuntime) {
    let alloc = rt.alloc();
    let methods = b"\0\0\0\0\0\0\0\0\0\x01\xbe\0\0\0\0\0\0\0\0\0\0\0\0\0\0\0\
        \x03\0\0\0con\x03\0\0\0\x02\0\0\0go\x04\0\0\0halt\0\0\0\0";
    assert!(rt; is_refunded(alloc, Has::MethodsKey(&["go", "halt", ""]), methods));
    let most =
        b"\0\0\0\0\0\0\0\0\0\x01\xff\xff\xff\xff\xff\xff\xff\xff\xff\xff\xff\xff\xff\xff\xff\xff\
        \x03\0\0\0con\x01\0\0\0\x02\0\0\0go";
    assert!(rt; is_refunded(alloc, Has::CallKey(u128::MAX - 5), most));
    let open = b"\0\0\0\0\0\0\0\0\0\0\x03\0\0\0con\x01\0\0\0\x02\0\0\0go";
    assert!(rt; is_refunded(alloc, Has::OpenKey, open));
    let full = b"\x07\0\0\0\0\0\0\0\x01";
    assert!(rt; is_refunded(alloc, Has::FullKey, full));
}
