//! Names and keys of the accounts of a generated chain.

ghost use Rattle.std.specs.Prelude.{◌≡◌, ◌<◌, IfOk};
ghost use Rattle.nr_gen.specs.Names.{contract_id, shard_name, user_id, user_key};

use nr_ids::{AccountId, PublicKey};
use std::alloc::{AllocError, Global};

/// The account id that these bytes are. They are one, so that nothing but memory can be wanting.
fn id_of(alloc: Global, bytes: &[u8]) -> Result<AccountId, AllocError>
    ensures { IfOk result (λ id. id ≡ bytes.now) }
{
    AccountId::parse(alloc, bytes).map_err(|_| AllocError)
}

/// As `s07`.
fn shard_name(shard: u32) -> [u8; 3]
    requires { shard < 100 }
    ensures { result ≡ shard_name shard }
{
    [b's', b'0' + (shard / 10) as u8, b'0' + (shard % 10) as u8]
}

/// As `s07`, which is also the least id of that shard: the boundary below it.
pub(crate) fn shard_id(alloc: Global, shard: u32) -> Result<AccountId, AllocError>
    requires { shard < 100 }
    ensures { IfOk result (λ id. id ≡ shard_name shard) }
{
    id_of(alloc, &shard_name(shard))
}

/// As `s07-u3`.
pub(crate) fn user_id(alloc: Global, shard: u32, user: u32) -> Result<AccountId, AllocError>
    requires shard { shard < 100 }
    requires user { user < 10 }
    ensures { IfOk result (λ id. id ≡ user_id shard user) }
{
    let [letter, tens, ones] = shard_name(shard);
    id_of(alloc, &[letter, tens, ones, b'-', b'u', b'0' + user as u8])
}

/// As `s07-tok`.
pub(crate) fn contract_id(alloc: Global, shard: u32) -> Result<AccountId, AllocError>
    requires { shard < 100 }
    ensures { IfOk result (λ id. id ≡ contract_id shard) }
{
    let [letter, tens, ones] = shard_name(shard);
    id_of(alloc, &[letter, tens, ones, b'-', b't', b'o', b'k'])
}

/// The key of a user: the numbers of its shard and its own, and zeros.
pub(crate) fn user_key(shard: u32, user: u32) -> PublicKey
    requires shard { shard < 256 }
    requires user { user < 256 }
    ensures { result ≡ user_key shard user }
{
    let mut key = [0; 32];
    key[0] = shard as u8;
    key[1] = user as u8;
    PublicKey::Ed25519(key)
}
