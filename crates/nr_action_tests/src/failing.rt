//! How actions fail.

use crate::frames::{Has, Seen, Sent, applied};
use crate::refuser::Refuser;
use crate::setting::{Ask, account_of, priced};
use nr_config::Config;
use nr_records::Account;
use std::alloc::Global;

/// 64 hexadecimal digits, of 32 bytes 01.
pub(crate) const IMPLICIT: &[u8] =
    b"0101010101010101010101010101010101010101010101010101010101010101";

/// What is seen in a state where alice has this account, and the action calls nothing.
pub(crate) fn seen_with(
    alloc: Global,
    config: Config,
    account: Account,
    has: Has,
    sent: Sent,
) -> Seen {
    let caller = Refuser {
        config,
        kind: 0,
        part: 0,
        burnt: 0,
    };
    applied(alloc, &caller, &account, has, sent)
}

/// A receipt whose first action fails, or not: what alice, who has 1000, has beside, its sender, its receiver, its
/// actions, and the failure.
type Row = (Has, &'static [u8], &'static [u8], &'static [Ask], [u32; 2]);

const CALL: &[Ask] = &[Ask::Call("go", 90, 5)];

const TWO: &[Ask] = &[Ask::Transfer(1), Ask::Transfer(1)];

const FAILURES: [Row; 20] = [
    // Accounts that may not be made.
    (Has::Nothing, b"bob", b"alice", &[Ask::Create], [1, 0]),
    (Has::Nothing, b"alice", b"system", &[Ask::Create], [3, 0]),
    (Has::Nothing, b"alice", b"y.bob", &[Ask::Create], [4, 0]),
    (Has::Nothing, b"alice", b"y.x.alice", &[Ask::Create], [4, 0]),
    (Has::Nothing, b"alice", IMPLICIT, &[Ask::Create], [11, 0]),
    // Nothing is done on an absent account.
    (Has::Nothing, b"alice", b"bob", &[Ask::Transfer(5)], [2, 0]),
    (Has::Nothing, b"alice", b"bob", CALL, [2, 0]),
    (Has::Nothing, b"alice", b"bob", &[Ask::Deploy], [2, 0]),
    (Has::Nothing, b"bob", b"bob", &[Ask::DeleteKey], [2, 0]),
    (Has::Nothing, b"bob", b"bob", &[Ask::Delete], [2, 0]),
    // No other account does what its owner may.
    (Has::Nothing, b"bob", b"alice", &[Ask::Deploy], [5, 0]),
    (Has::Nothing, b"bob", b"alice", &[Ask::AddKey], [5, 0]),
    (Has::Nothing, b"bob", b"alice", &[Ask::DeleteKey], [5, 0]),
    (Has::Nothing, b"bob", b"alice", &[Ask::Delete], [5, 0]),
    // Only a single transfer makes an implicit account.
    (Has::Nothing, b"alice", IMPLICIT, TWO, [2, 0]),
    (
        Has::Nothing,
        b"system",
        IMPLICIT,
        &[Ask::Transfer(1)],
        [2, 0],
    ),
    (
        Has::Nothing,
        b"alice",
        IMPLICIT,
        &[Ask::Transfer(1)],
        [0, 0],
    ),
    // Keys and code stand or do not.
    (Has::Nothing, b"alice", b"alice", &[Ask::DeleteKey], [6, 0]),
    (Has::FullKey, b"alice", b"alice", &[Ask::AddKey], [7, 0]),
    (Has::Nothing, b"alice", b"alice", CALL, [12, 0]),
];

#[test]
fn actions_fail(rt: HostRuntime) {
    let alloc = rt.alloc();
    for (place, (has, predecessor, receiver, asks, want)) in FAILURES.iter().enumerate() {
        let sent = Sent {
            predecessor: *predecessor,
            receiver: *receiver,
            asks: *asks,
        };
        let seen = seen_with(alloc, Config::free(), account_of(1000), *has, sent);
        assert_eq!(rt; seen.failure, *want, "row {place}");
    }
}

/// The failure of making an account whose id has no dot, where an id has 4 bytes at least.
fn short_failure(alloc: Global, predecessor: &'static [u8], receiver: &'static [u8]) -> [u32; 2] {
    let sent = Sent {
        predecessor,
        receiver,
        asks: &[Ask::Create],
    };
    seen_with(alloc, priced(alloc), account_of(1000), Has::Nothing, sent).failure
}

#[test]
fn short_ids_are_the_registrars(rt: HostRuntime) {
    let alloc = rt.alloc();
    assert_eq!(rt; short_failure(alloc, b"alice", b"bob"), [3, 0]);
    assert_eq!(rt; short_failure(alloc, b"registrar", b"bob"), [0, 0]);
    assert_eq!(rt; short_failure(alloc, b"alice", b"carl"), [0, 0]);
}
