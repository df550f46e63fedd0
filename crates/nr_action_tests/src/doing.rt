//! What actions do.

use crate::failing::{IMPLICIT, seen_with};
use crate::frames::{Has, Seen, Sent};
use crate::setting::{Ask, account_of};
use nr_config::Config;
use std::alloc::Global;

/// What is seen of a receipt's first action under `free`, where alice has 1000.
fn seen(
    alloc: Global,
    has: Has,
    predecessor: &'static [u8],
    receiver: &'static [u8],
    asks: &'static [Ask],
) -> Seen {
    let sent = Sent {
        predecessor,
        receiver,
        asks,
    };
    seen_with(alloc, Config::free(), account_of(1000), has, sent)
}

/// What is seen where nothing failed, and no receipt was made.
fn done(account: (u128, u64), key: Option<(u64, Option<u128>)>, acts: bool) -> Seen {
    Seen {
        failure: [0, 0],
        account: Some(account),
        key,
        acts,
        refund: None,
        counts: (7, 0),
    }
}

#[test]
fn an_account_changes_its_code_and_keys(rt: HostRuntime) {
    let alloc = rt.alloc();
    let deployed = seen(alloc, Has::Nothing, b"alice", b"alice", &[Ask::Deploy]);
    assert_eq!(rt; deployed, done((1000, 103), None, true));
    let added = seen(alloc, Has::Nothing, b"alice", b"alice", &[Ask::AddKey]);
    assert_eq!(rt; added, done((1000, 182), Some((7, None)), true));
    let deleted = seen(alloc, Has::FullKey, b"alice", b"alice", &[Ask::DeleteKey]);
    assert_eq!(rt; deleted, done((1000, 100), None, true));
}

#[test]
fn accounts_are_made(rt: HostRuntime) {
    let alloc = rt.alloc();
    let asks = &[Ask::Create, Ask::Transfer(5)];
    let made = seen(alloc, Has::Nothing, b"alice", b"x.alice", asks);
    assert_eq!(rt; made, done((0, 100), None, true));
    let implicit = seen(alloc, Has::Nothing, b"alice", IMPLICIT, &[Ask::Transfer(1)]);
    assert_eq!(rt; implicit, done((1, 182), Some((0, None)), false));
}

#[test]
fn a_refund_raises_the_signers_allowance(rt: HostRuntime) {
    let alloc = rt.alloc();
    let asks = &[Ask::Transfer(90)];
    let raised = seen(alloc, Has::CallKey(0), b"system", b"alice", asks);
    assert_eq!(rt; raised, done((1090, 216), Some((0, Some(90))), false));
    let most = seen(
        alloc,
        Has::CallKey(u128::MAX - 5),
        b"system",
        b"alice",
        asks,
    );
    assert_eq!(rt; most.key, Some((0, Some(u128::MAX))));
    let given = seen(alloc, Has::CallKey(0), b"bob", b"alice", asks);
    assert_eq!(rt; given, done((1090, 216), Some((0, Some(0))), false));
}
