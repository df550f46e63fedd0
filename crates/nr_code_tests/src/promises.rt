//! Promises of a call, and the receipts behind them.

use nr_bytes::{Blob, List, Text};
use nr_config::Config;
use nr_ids::{AccountId, Hash32, Height, PublicKey};
use nr_promises::{PromiseBook, PromiseFault};
use nr_records::{Action, Receipt, hash_of};
use nr_state::CallContext;
use std::alloc::{AllocError, Global};
use std::test::Fail;

/// The SHA-256 digests of the receipts of `callbacks`, by a program that isn't this one: three
/// receipts of `aa` under the ids that it draws under 0, 1 and 4, at height 1. The first two give
/// their results under the ids of 2 and 3.
const CALLBACKS: [[u8; 32]; 3] = [
    [
        0x54, 0x25, 0x01, 0x48, 0xf9, 0x23, 0xa0, 0xe2, 0x4a, 0x26, 0x52, 0xe2, 0xfd, 0x66, 0x5b,
        0x29, 0x4e, 0x0a, 0xfa, 0x18, 0x80, 0xf4, 0x35, 0x0d, 0x12, 0x5c, 0x56, 0x42, 0x3e, 0xa9,
        0x84, 0x76,
    ],
    [
        0xd7, 0x09, 0xd3, 0xfa, 0x53, 0x0e, 0x54, 0x5f, 0x61, 0xe7, 0x1a, 0xc7, 0xbf, 0xdb, 0xce,
        0xef, 0xfa, 0x54, 0x31, 0x9a, 0x60, 0x0e, 0xc7, 0xf1, 0x0a, 0x58, 0xb1, 0x0d, 0xe1, 0x3a,
        0x9d, 0xa5,
    ],
    [
        0x8a, 0x62, 0x32, 0x29, 0x23, 0x6b, 0xe7, 0x5b, 0x1a, 0x8e, 0xb8, 0xcc, 0xe4, 0x80, 0xb6,
        0xbe, 0xb0, 0xe6, 0xd5, 0x80, 0xad, 0xed, 0x2a, 0xca, 0x30, 0xc6, 0xfe, 0x36, 0x26, 0x8e,
        0x40, 0x74,
    ],
];

fn id_of(alloc: Global, bytes: &[u8]) -> Result<AccountId, AllocError> {
    AccountId::parse(alloc, bytes).map_err(|_| AllocError)
}

fn context_of(alloc: Global) -> Result<CallContext, AllocError> {
    Ok(CallContext {
        current: id_of(alloc, b"aa")?,
        predecessor: id_of(alloc, b"al")?,
        signer: id_of(alloc, b"al")?,
        signer_key: PublicKey::Ed25519([1; 32]),
        method: Text::of(String::new(alloc)),
        args: Blob::of(Vec::new(alloc)),
        deposit: 0,
        gas: 1000,
        gas_price: 100,
        inputs: List::of(Vec::new(alloc)),
        outputs: List::of(Vec::new(alloc)),
        receipt_id: Hash32([7; 32]),
        next_ordinal: 0,
        height: Height(1),
        timestamp: 0,
    })
}

fn book_of(alloc: Global) -> Result<PromiseBook, AllocError> {
    let context = context_of(alloc)?;
    PromiseBook::new(alloc, &context.current, &context, &Config::free())
}

fn create(alloc: Global, book: &mut PromiseBook, receiver: &[u8]) -> Result<u64, PromiseFault> {
    let receiver = id_of(alloc, receiver)?;
    book.create(receiver)
}

fn then(alloc: Global, book: &mut PromiseBook, after: u64) -> Result<u64, PromiseFault> {
    let receiver = id_of(alloc, b"aa")?;
    book.then(after, receiver)
}

/// Promises to `hh` and `zz`, joined, and a callback to `aa`. Gives their indices.
fn callbacks(alloc: Global, book: &mut PromiseBook) -> Result<[u64; 4], PromiseFault> {
    let first = create(alloc, book, b"hh")?;
    let second = create(alloc, book, b"zz")?;
    let both = book.join(&[first, second])?;
    let last = then(alloc, book, both)?;
    book.act(first, Action::Transfer { deposit: 5 })?;
    book.act(last, Action::Transfer { deposit: 9 })?;
    Ok([first, second, both, last])
}

fn digests(alloc: Global, made: &[Receipt]) -> Result<Vec<[u8; 32]>, AllocError> {
    let mut digests = Vec::new(alloc);
    for receipt in made {
        digests.push(hash_of(alloc, receipt)?.0)?;
    }
    Ok(digests)
}

#[test]
fn a_callback_waits_for_joined_promises(rt: HostRuntime) -> Result<(), Fail> {
    let alloc = rt.alloc();
    let mut book = book_of(alloc)?;
    assert_eq!(rt; callbacks(alloc, &mut book), Ok([0, 1, 2, 3]));
    assert_eq!(rt;
        (book.inputs_of(2), book.actions_of(3), book.promises()),
        (Ok(2), Ok(1), 4)
    );
    let (made, next) = book.finish();
    assert_eq!(rt;
        digests(alloc, made.inner())?.as_slice(),
        CALLBACKS.as_slice()
    );
    assert_eq!(rt; next, 5);
    Ok(())
}

/// What is refused where 0 is a promise, 1 is a joint one, and 2 is none.
fn bad_indices(
    alloc: Global,
    book: &mut PromiseBook,
) -> Result<[Option<PromiseFault>; 5], PromiseFault> {
    create(alloc, book, b"hh")?;
    book.join(&[0, 0])?;
    Ok([
        then(alloc, book, 2).err(),
        book.join(&[0, 2]).err(),
        book.act(2, Action::CreateAccount).err(),
        book.act(1, Action::CreateAccount).err(),
        book.receipt_of(1).err(),
    ])
}

#[test]
fn indices_are_looked_at(rt: HostRuntime) -> Result<(), Fail> {
    let alloc = rt.alloc();
    let mut book = book_of(alloc)?;
    let bad = Some(PromiseFault::BadIndex);
    let joint = Some(PromiseFault::Joint);
    assert_eq!(rt;
        bad_indices(alloc, &mut book),
        Ok([bad, bad, bad, joint, joint])
    );
    Ok(())
}

/// What the calls past a limit answer: the 101st action, a joint promise of 128 receipts and one of
/// 129, and calls behind 1024 promises.
fn at_limits(
    alloc: Global,
    book: &mut PromiseBook,
) -> Result<[Option<PromiseFault>; 5], PromiseFault> {
    create(alloc, book, b"hh")?;
    for _ in 0..100 {
        book.act(0, Action::CreateAccount)?;
    }
    let action = book.act(0, Action::CreateAccount).err();
    let most = book.join(&[0; 128]).err();
    let past = book.join(&[0; 129]).err();
    for _ in 2..1024 {
        book.join(&[])?;
    }
    Ok([
        action,
        most,
        past,
        create(alloc, book, b"hh").err(),
        book.join(&[]).err(),
    ])
}

#[test]
fn limits_are_kept(rt: HostRuntime) -> Result<(), Fail> {
    let alloc = rt.alloc();
    let mut book = book_of(alloc)?;
    let full = Some(PromiseFault::TooMany);
    let actions = Some(PromiseFault::TooManyActions);
    let inputs = Some(PromiseFault::TooManyInputs);
    assert_eq!(rt;
        at_limits(alloc, &mut book),
        Ok([actions, None, inputs, full, full])
    );
    Ok(())
}
