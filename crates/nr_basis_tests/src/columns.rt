//! The keys of the trie's entries.

use nr_columns::keys;
use nr_ids::{AccountId, PublicKey};
use std::test::Fail;

#[test]
fn keys_have_their_bytes(rt: HostRuntime) -> Result<(), Fail> {
    let alloc = rt.alloc();
    let id = AccountId::parse(alloc, b"ab")?;
    let account = keys::account_key(alloc, &id)?;
    assert!(rt; account.inner() == b"\0ab".as_slice());
    let code = keys::code_key(alloc, &id)?;
    assert!(rt; code.inner() == b"\x01ab".as_slice());
    let datum = keys::datum_key(alloc, &id, b"k")?;
    assert!(rt; datum.inner() == b"\x09ab,k".as_slice());
    Ok(())
}

#[test]
fn access_keys_have_their_bytes(rt: HostRuntime) -> Result<(), Fail> {
    let alloc = rt.alloc();
    let id = AccountId::parse(alloc, b"ab")?;
    let key = keys::access_key(alloc, &id, &PublicKey::Ed25519([7; 32]))?;
    assert!(rt; key.inner().len() == 37);
    assert!(rt; &key.inner()[..6] == b"\x02ab\x02\0\x07".as_slice());
    Ok(())
}
