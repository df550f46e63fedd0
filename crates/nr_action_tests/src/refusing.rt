//! Why a transaction is refused.

use crate::conversions::{Asked, answered};
use crate::frames::Has;
use crate::setting::{Ask, account_of, priced};
use nr_config::Config;
use nr_ids::Hash32;
use nr_records::Account;
use std::alloc::Global;

/// A transaction of alice, who has 1000, under prices: what she has beside, its receiver, its nonce, its actions, and
/// the refusal with its fields, or 0 and what was burnt.
type Row = (Has, &'static [u8], u64, &'static [Ask], [u128; 3]);

const KEY_100: Has = Has::CallKey(100);

const GO: &[Ask] = &[Ask::Call("go", 90, 0)];

const GO_WITH_1: &[Ask] = &[Ask::Call("go", 90, 1)];

const STOP: &[Ask] = &[Ask::Call("stop", 90, 0)];

const TWICE: &[Ask] = &[Ask::Call("go", 1, 0), Ask::Call("go", 1, 0)];

const FIVE: &[Ask] = &[Ask::Transfer(5)];

const FOUR: &[Ask] = &[Ask::Create, Ask::Create, Ask::Create, Ask::Create];

const TOO_MUCH_GAS: &[Ask] = &[Ask::Call("go", 1_000_000_000_000_001, 0)];

/// Two calls whose gas doesn't fit in 64 bits together.
const HALVES: &[Ask] = &[Ask::Call("go", 1 << 63, 0), Ask::Call("go", 1 << 63, 0)];

/// Two transfers that don't fit in 128 bits together.
const TOO_DEAR: &[Ask] = &[Ask::Transfer(1 << 127), Ask::Transfer(1 << 127)];

const REFUSALS: [Row; 29] = [
    // A key for calls forbids all else.
    (KEY_100, b"con", 1, FIVE, [6, 1, 0]),
    (KEY_100, b"con", 1, TWICE, [6, 1, 0]),
    (KEY_100, b"con", 1, GO_WITH_1, [6, 2, 0]),
    (KEY_100, b"bob", 1, GO_WITH_1, [6, 2, 0]),
    (KEY_100, b"bob", 1, STOP, [6, 3, 0]),
    (KEY_100, b"con", 1, STOP, [6, 4, 0]),
    // It allows the methods that it names; one that names none allows all.
    (Has::MethodsKey(&["go"]), b"con", 1, GO, [0, 4, 4]),
    (Has::MethodsKey(&["g", "go"]), b"con", 1, GO, [0, 4, 4]),
    (Has::MethodsKey(&["go", "stop"]), b"con", 1, GO, [0, 4, 4]),
    (Has::MethodsKey(&["gone"]), b"con", 1, GO, [6, 4, 0]),
    (Has::MethodsKey(&["g", "o"]), b"con", 1, GO, [6, 4, 0]),
    (Has::MethodsKey(&[""]), b"con", 1, GO, [6, 4, 0]),
    (Has::MethodsKey(&[]), b"con", 1, GO, [0, 4, 4]),
    (Has::MethodsKey(&[]), b"con", 1, STOP, [0, 4, 4]),
    // An allowance bounds the cost of gas.
    (KEY_100, b"con", 1, GO, [0, 4, 4]),
    (Has::CallKey(99), b"con", 1, GO, [8, 99, 100]),
    (Has::CallKey(0), b"con", 2, GO, [8, 0, 100]),
    // A nonce is above the key's.
    (Has::Nothing, b"bob", 8, FIVE, [2, 0, 0]),
    (Has::FullKey, b"bob", 7, FIVE, [3, 7, 7]),
    (Has::FullKey, b"bob", 6, FIVE, [3, 7, 6]),
    (Has::FullKey, b"bob", 8, FIVE, [0, 8, 8]),
    // Actions and their gas are bounded.
    (Has::FullKey, b"bob", 8, FOUR, [4, 0, 0]),
    (Has::FullKey, b"bob", 7, FOUR, [3, 7, 7]),
    (Has::FullKey, b"bob", 8, TOO_MUCH_GAS, [5, 0, 0]),
    (KEY_100, b"bob", 8, HALVES, [5, 0, 0]),
    // A cost is bounded and paid for.
    (Has::FullKey, b"bob", 8, TOO_DEAR, [7, 0, 0]),
    (KEY_100, b"con", 8, TOO_DEAR, [6, 1, 0]),
    (Has::FullKey, b"bob", 8, &[Ask::Transfer(979)], [0, 8, 8]),
    (
        Has::FullKey,
        b"bob",
        8,
        &[Ask::Transfer(980)],
        [9, 1000, 1001],
    ),
];

#[test]
fn transactions_are_refused(rt: HostRuntime) {
    let alloc = rt.alloc();
    let config = priced(alloc);
    for (place, (has, receiver, nonce, asks, want)) in REFUSALS.iter().enumerate() {
        let asked = Asked {
            signer: b"alice",
            receiver: *receiver,
            nonce: *nonce,
            asks: *asks,
        };
        let seen = answered(alloc, &config, &account_of(1000), *has, asked);
        assert_eq!(rt; seen.answer, *want, "row {place}");
    }
}

/// The refusal of a transfer of 5 to bob under the built-in configuration with prices, which costs
/// 40 gas: by what the signer has to spend, and what is locked. The key costs 82 bytes, so the
/// storage asks for 182,000.
fn storage_refusal(alloc: Global, signer: &'static [u8], amount: u128, locked: u128) -> [u128; 3] {
    let account = Account {
        amount,
        locked,
        code_hash: Hash32([0; 32]),
        storage_usage: 100,
    };
    let asked = Asked {
        signer,
        receiver: b"bob",
        nonce: 8,
        asks: &[Ask::Transfer(5)],
    };
    answered(alloc, &Config::generated(), &account, Has::FullKey, asked).answer
}

#[test]
fn what_is_left_holds_the_storage(rt: HostRuntime) {
    let alloc = rt.alloc();
    assert_eq!(rt;
        storage_refusal(alloc, b"alice", 100_045, 81_999),
        [10, 181_999, 182_000]
    );
    assert_eq!(rt;
        storage_refusal(alloc, b"alice", 100_045, 82_000),
        [0, 20, 20]
    );
    assert_eq!(rt; storage_refusal(alloc, b"alice", 44, 0), [9, 44, 45]);
    assert_eq!(rt; storage_refusal(alloc, b"carol", 44, 0), [1, 0, 0]);
}
