//! What a receipt waits for, and how much of it hasn't come.

ghost use Rattle.std.specs.Prelude.{◌≡◌, true, IfOk, OnOk};

use crate::arrived::add;
use crate::postponed::put;
use crate::queue_setting::{A, B, R, ab, holds};
use crate::setting::{State, empty_state, size};
use nr_ids::{AccountId, Hash32};
use nr_records::{Receipt, encode};
use nr_state::queues;
use std::alloc::{AllocError, Global};
use std::test::Fail;

/// The bytes of the receipt that waits.
const RECEIPT: [u8; 176] = *b"\
    \x02\0\0\0ab\x02\0\0\0abrrrrrrrrrrrrrrrrrrrrrrrrrrrrrrrr\0\
    \x02\0\0\0ab\0kkkkkkkkkkkkkkkkkkkkkkkkkkkkkkkk\
    \x05\0\0\0\0\0\0\0\0\0\0\0\0\0\0\0\0\0\0\0\
    \x02\0\0\0aaaaaaaaaaaaaaaaaaaaaaaaaaaaaaaabbbbbbbbbbbbbbbbbbbbbbbbbbbbbbbb\0\0\0\0\
";

/// A state where the first input came, and then a receipt of two inputs was postponed.
fn waiting(alloc: Global, receiver: &AccountId) -> Result<State, AllocError>
    ensures { IfOk result (λ state. state.whole ≡ true) }
{
    let mut state = empty_state(alloc);
    add(alloc, &mut state, receiver, &A, &None)?;
    put(alloc, &mut state, &R, &A, &B)?;
    Ok(state)
}

/// How many inputs the receipt lacks once a datum came.
fn missing_with(
    alloc: Global,
    state: &mut State,
    receiver: &AccountId,
    id: &Hash32,
) -> Result<Option<u32>, AllocError>
    requires { state.old.whole ≡ true }
    ensures { OnOk result (state.new.whole ≡ true) }
{
    add(alloc, state, receiver, id, &None)?;
    let count = queues::missing(alloc, state, receiver, &R)?;
    Ok(count)
}

/// How many inputs the receipt lacks once a datum is taken out.
fn missing_without(
    alloc: Global,
    state: &mut State,
    receiver: &AccountId,
    id: &Hash32,
) -> Result<Option<u32>, AllocError>
    requires { state.old.whole ≡ true }
    ensures { OnOk result (state.new.whole ≡ true) }
{
    queues::remove_received(alloc, state, receiver, id)?;
    let count = queues::missing(alloc, state, receiver, &R)?;
    Ok(count)
}

#[test]
fn a_receipt_lacks_what_did_not_come(rt: HostRuntime) -> Result<(), Fail> {
    let alloc = rt.alloc();
    let id = ab(alloc)?;
    let mut state = waiting(alloc, &id)?;
    assert_eq!(rt; queues::missing(alloc, &state, &id, &R)?, Some(1));
    assert_eq!(rt; missing_with(alloc, &mut state, &id, &B)?, Some(0));
    assert_eq!(rt; missing_without(alloc, &mut state, &id, &B)?, Some(1));
    Ok(())
}

/// Whether it is the receipt that has this input; `None` where none has it.
fn is_awaited(
    alloc: Global,
    state: &State,
    receiver: &AccountId,
    input: &Hash32,
) -> Result<Option<bool>, AllocError>
    requires { state.now.whole ≡ true }
{
    match queues::awaited(alloc, state, receiver, input)? {
        Some(by) => Ok(Some(by == R)),
        None => Ok(None),
    }
}

#[test]
fn both_inputs_are_awaited(rt: HostRuntime) -> Result<(), Fail> {
    let alloc = rt.alloc();
    let id = ab(alloc)?;
    let state = waiting(alloc, &id)?;
    assert_eq!(rt; is_awaited(alloc, &state, &id, &A)?, Some(true));
    assert_eq!(rt; is_awaited(alloc, &state, &id, &B)?, Some(true));
    assert_eq!(rt; is_awaited(alloc, &state, &id, &R)?, None);
    Ok(())
}

#[test]
fn inputs_and_their_count_stand_under_the_receiver(rt: HostRuntime) -> Result<(), Fail> {
    let alloc = rt.alloc();
    let state = waiting(alloc, &ab(alloc)?)?;
    let first = b"\x04ab,aaaaaaaaaaaaaaaaaaaaaaaaaaaaaaaa";
    assert!(rt; holds(&state, first, &R.0)?);
    let second = b"\x04ab,bbbbbbbbbbbbbbbbbbbbbbbbbbbbbbbb";
    assert!(rt; holds(&state, second, &R.0)?);
    let count = b"\x05ab,rrrrrrrrrrrrrrrrrrrrrrrrrrrrrrrr";
    assert!(rt; holds(&state, count, b"\x01\0\0\0")?);
    Ok(())
}

#[test]
fn a_receipt_stands_under_its_receiver_and_id(rt: HostRuntime) -> Result<(), Fail> {
    let alloc = rt.alloc();
    let state = waiting(alloc, &ab(alloc)?)?;
    let key = b"\x06ab,rrrrrrrrrrrrrrrrrrrrrrrrrrrrrrrr";
    assert!(rt; holds(&state, key, &RECEIPT)?);
    assert_eq!(rt; size(&state)?, 5);
    Ok(())
}

/// Whether a receipt is the one that was put.
fn is_put(alloc: Global, receipt: &Receipt) -> Result<bool, AllocError> {
    let bytes = encode(alloc, receipt)?;
    Ok(bytes.inner() == RECEIPT.as_slice())
}

/// Takes the receipt out: whether it was there, and whether it is the one that was put.
fn take(alloc: Global, state: &mut State, receiver: &AccountId) -> Result<[bool; 2], AllocError>
    requires { state.old.whole ≡ true }
    ensures { OnOk result (state.new.whole ≡ true) }
{
    let Some(receipt) = queues::take_postponed(alloc, state, receiver, &R)? else {
        return Ok([false; 2]);
    };
    Ok([true, is_put(alloc, &receipt)?])
}

#[test]
fn a_receipt_that_is_taken_leaves_nothing(rt: HostRuntime) -> Result<(), Fail> {
    let alloc = rt.alloc();
    let id = ab(alloc)?;
    let mut state = waiting(alloc, &id)?;
    assert_eq!(rt; take(alloc, &mut state, &id)?, [true; 2]);
    assert_eq!(rt; size(&state)?, 1);
    assert_eq!(rt; take(alloc, &mut state, &id)?, [false; 2]);
    Ok(())
}
