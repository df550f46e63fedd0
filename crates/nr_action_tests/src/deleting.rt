//! The end of an account.

use crate::failing::seen_with;
use crate::frames::{Has, Seen, Sent};
use crate::setting::Ask;
use nr_config::Config;
use nr_ids::Hash32;
use nr_records::Account;
use std::alloc::Global;

/// What is seen once alice deletes herself, with what she has to spend, what is locked, and the
/// bytes that she is counted as.
fn deleted(alloc: Global, amount: u128, locked: u128, storage_usage: u64, has: Has) -> Seen {
    let account = Account {
        amount,
        locked,
        code_hash: Hash32([0; 32]),
        storage_usage,
    };
    let sent = Sent {
        predecessor: b"alice",
        receiver: b"alice",
        asks: &[Ask::Delete],
    };
    seen_with(alloc, Config::free(), account, has, sent)
}

/// The id of the refund: SHA-256 of the receipt's id, the height 5 and the number 7.
const REFUND: Hash32 = Hash32(
    *b"\
    \x74\x58\xe6\xbf\xa7\x4d\x1d\xf8\x20\x38\xe8\xad\x2f\xa4\xcf\x47\
    \xe2\x97\x1a\x48\x5e\x6e\xc7\x04\x03\xa7\x3c\x1c\xb7\x22\xda\x6a\
",
);

/// What is seen of an account that went.
fn gone(refund: Option<(u128, Hash32)>, next_ordinal: u64) -> Seen {
    Seen {
        failure: [0, 0],
        account: None,
        key: None,
        acts: true,
        refund,
        counts: (next_ordinal, 0),
    }
}

#[test]
fn the_beneficiary_gets_what_the_account_had(rt: HostRuntime) {
    let alloc = rt.alloc();
    let with_key = deleted(alloc, 1000, 0, 100, Has::FullKey);
    assert_eq!(rt; with_key, gone(Some((1000, REFUND)), 8));
    let with_nothing = deleted(alloc, 0, 0, 100, Has::Nothing);
    assert_eq!(rt; with_nothing, gone(None, 7));
}

#[test]
fn locked_and_large_accounts_stay(rt: HostRuntime) {
    let alloc = rt.alloc();
    assert_eq!(rt; deleted(alloc, 9, 1, 10_001, Has::Nothing).failure, [8, 0]);
    assert_eq!(rt; deleted(alloc, 9, 0, 10_001, Has::Nothing).failure, [9, 0]);
    assert_eq!(rt; deleted(alloc, 9, 0, 10_000, Has::Code).failure, [0, 0]);
}
