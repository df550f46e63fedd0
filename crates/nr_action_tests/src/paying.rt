//! What a conversion takes from its signer, and what it makes.

ghost use Rattle.nr_action_tests.specs.Ready.{IsReady};

use crate::conversions::{Answer, Asked, answered, transaction_of};
use crate::frames::{Has, state_of};
use crate::setting::{Ask, PLACE, State, account_of, id_of, priced};
use nr_config::Config;
use nr_records::encode;
use nr_txconvert::convert;
use std::alloc::{AllocError, Global};

/// What is seen once alice, who has 1000, paid under prices.
fn paid(alloc: Global, has: Has, receiver: &'static [u8], asks: &'static [Ask]) -> Answer {
    let asked = Asked {
        signer: b"alice",
        receiver,
        nonce: 8,
        asks,
    };
    answered(alloc, &priced(alloc), &account_of(1000), has, asked)
}

#[test]
fn the_whole_cost_is_taken(rt: HostRuntime) {
    let alloc = rt.alloc();
    let remote = Answer {
        answer: [0, 8, 8],
        account: Some((974, 182)),
        key: Some((8, None)),
    };
    assert_eq!(rt;
        paid(alloc, Has::FullKey, b"bob", &[Ask::Transfer(5)]),
        remote
    );
    let local = Answer {
        answer: [0, 6, 6],
        account: Some((976, 182)),
        key: Some((8, None)),
    };
    assert_eq!(rt;
        paid(alloc, Has::FullKey, b"alice", &[Ask::Transfer(5)]),
        local
    );
    let call = Answer {
        answer: [0, 4, 4],
        account: Some((900, 216)),
        key: Some((8, Some(0))),
    };
    assert_eq!(rt;
        paid(alloc, Has::CallKey(100), b"con", &[Ask::Call("go", 90, 0)]),
        call
    );
}

/// The receipt of a transfer of 5 from alice to bob with nonce 8. Its id is the SHA-256 of the
/// transaction's hash, the height 5 and the number 0.
const RECEIPT: [u8; 136] = *b"\
    \x05\0\0\0alice\x03\0\0\0bob\
    \x3a\xb7\x92\xe9\x44\x49\xda\x60\x68\x85\xab\x7d\x3d\xcc\x38\x5e\
    \xa7\x18\x9d\x22\x24\x49\xa7\x0d\x13\xb0\x6c\x5c\xb5\x70\x22\x8b\
    \0\x05\0\0\0alice\0\x01\x01\x01\x01\x01\x01\x01\x01\x01\x01\x01\x01\x01\x01\x01\x01\
    \x01\x01\x01\x01\x01\x01\x01\x01\x01\x01\x01\x01\x01\x01\x01\x01\
    \x01\0\0\0\0\0\0\0\0\0\0\0\0\0\0\0\0\0\0\0\0\0\0\0\
    \x01\0\0\0\x03\x05\0\0\0\0\0\0\0\0\0\0\0\0\0\0\0\
";

const TRANSFER: Asked = Asked {
    signer: b"alice",
    receiver: b"bob",
    nonce: 8,
    asks: &[Ask::Transfer(5)],
};

/// Whether the transfer becomes that receipt.
fn becomes(alloc: Global, config: &Config, state: &mut State) -> Result<bool, AllocError>
    requires { IsReady config.now state.old }
{
    let tx = transaction_of(alloc, TRANSFER)?;
    let Ok(made) = convert(alloc, state, config, &tx, &PLACE) else {
        return Ok(false);
    };
    let bytes = encode(alloc, &made.receipt)?;
    Ok(bytes.inner() == RECEIPT.as_slice())
}

fn try_becoming(alloc: Global) -> Result<bool, AllocError> {
    let id = id_of(alloc, b"alice")?;
    let config = priced(alloc);
    let mut state = state_of(alloc, &config, &id, &account_of(1000), Has::FullKey)?;
    becomes(alloc, &config, &mut state)
}

#[test]
fn a_transaction_becomes_its_receipt(rt: HostRuntime) {
    assert_eq!(rt; try_becoming(rt.alloc()), Ok(true));
}
