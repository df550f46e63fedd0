//! Calls that fail.

use crate::frames::{Has, Seen, Sent, applied};
use crate::refuser::Refuser;
use crate::setting::{Ask, account_of};
use nr_config::Config;
use std::alloc::Global;

/// What is seen once alice calls herself with a deposit of 5 and 90 gas, and the call fails so.
fn called(alloc: Global, kind: u32, part: u32, burnt: u64) -> Seen {
    let caller = Refuser {
        config: Config::free(),
        kind,
        part,
        burnt,
    };
    let sent = Sent {
        predecessor: b"alice",
        receiver: b"alice",
        asks: &[Ask::Call("go", 90, 5)],
    };
    applied(alloc, &caller, &account_of(1000), Has::Code, sent)
}

/// What is seen of a call that failed: the account is as it was.
fn failed(kind: u32, part: u32, burnt: u128) -> Seen {
    Seen {
        failure: [kind, part],
        account: Some((1000, 103)),
        key: None,
        acts: true,
        refund: None,
        counts: (7, burnt),
    }
}

#[test]
fn a_failed_call_burns_its_gas_and_nothing_else(rt: HostRuntime) {
    let alloc = rt.alloc();
    assert_eq!(rt; called(alloc, 13, 5, 0), failed(13, 5, 0));
    assert_eq!(rt; called(alloc, 14, 0, 0), failed(14, 0, 0));
    assert_eq!(rt; called(alloc, 15, 1, 9), failed(15, 1, 9));
    assert_eq!(rt; called(alloc, 16, 2, 40), failed(16, 2, 40));
    assert_eq!(rt; called(alloc, 17, 0, 100), failed(17, 0, 90));
}
