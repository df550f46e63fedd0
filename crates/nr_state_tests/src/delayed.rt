//! The queue of delayed receipts.

ghost use Rattle.std.specs.Prelude.{◌≡◌, true, IfOk, OnOk};

use crate::queue_setting::{A, B, R, ab, holds};
use crate::setting::{State, empty_state, size};
use nr_ids::Hash32;
use nr_records::{Body, DataReceipt, Receipt};
use nr_state::queues;
use std::alloc::{AllocError, Global};
use std::test::Fail;

/// The bytes of the receipt with the id B.
const RECEIPT: [u8; 78] = *b"\
    \x02\0\0\0ab\x02\0\0\0abbbbbbbbbbbbbbbbbbbbbbbbbbbbbbbbb\
    \x01rrrrrrrrrrrrrrrrrrrrrrrrrrrrrrrr\0\
";

fn receipt_of(alloc: Global, id: &Hash32) -> Result<Receipt, AllocError> {
    let body = Body::Datum(DataReceipt {
        data_id: R,
        bytes: None,
    });
    Ok(Receipt {
        predecessor: ab(alloc)?,
        receiver: ab(alloc)?,
        receipt_id: *id,
        body,
    })
}

/// Delays a receipt with this id.
fn delay(alloc: Global, state: &mut State, id: &Hash32) -> Result<(), AllocError>
    requires { state.old.whole ≡ true }
    ensures { OnOk result (state.new.whole ≡ true) }
{
    let receipt = receipt_of(alloc, id)?;
    queues::add_delayed(alloc, state, &receipt)?;
    Ok(())
}

/// Takes the receipt at the front, and answers its id.
fn serve(alloc: Global, state: &mut State) -> Result<Option<Hash32>, AllocError>
    requires { state.old.whole ≡ true }
    ensures { OnOk result (state.new.whole ≡ true) }
{
    match queues::take_delayed(alloc, state)? {
        Some(receipt) => Ok(Some(receipt.receipt_id)),
        None => Ok(None),
    }
}

/// A state with two delayed receipts.
fn two_delayed(alloc: Global) -> Result<State, AllocError>
    ensures { IfOk result (λ state. state.whole ≡ true) }
{
    let mut state = empty_state(alloc);
    delay(alloc, &mut state, &A)?;
    delay(alloc, &mut state, &B)?;
    Ok(state)
}

/// A state whose two delayed receipts were both served.
fn two_served(alloc: Global) -> Result<State, AllocError>
    ensures { IfOk result (λ state. state.whole ≡ true) }
{
    let mut state = two_delayed(alloc)?;
    serve(alloc, &mut state)?;
    serve(alloc, &mut state)?;
    Ok(state)
}

#[test]
fn an_empty_queue_serves_nothing(rt: HostRuntime) -> Result<(), Fail> {
    let mut state = empty_state(rt.alloc());
    assert_eq!(rt; serve(rt.alloc(), &mut state)?, None);
    assert_eq!(rt; size(&state)?, 0);
    Ok(())
}

#[test]
fn receipts_are_served_in_order(rt: HostRuntime) -> Result<(), Fail> {
    let mut state = two_delayed(rt.alloc())?;
    assert_eq!(rt; serve(rt.alloc(), &mut state)?, Some(A));
    assert_eq!(rt; serve(rt.alloc(), &mut state)?, Some(B));
    assert_eq!(rt; serve(rt.alloc(), &mut state)?, None);
    Ok(())
}

#[test]
fn delayed_receipts_stand_under_their_numbers(rt: HostRuntime) -> Result<(), Fail> {
    let mut state = two_delayed(rt.alloc())?;
    assert!(rt; holds(&state, b"\x07", b"\0\0\0\0\0\0\0\0\x02\0\0\0\0\0\0\0")?);
    assert!(rt; holds(&state, b"\x07\x01\0\0\0\0\0\0\0", &RECEIPT)?);
    assert_eq!(rt; serve(rt.alloc(), &mut state)?, Some(A));
    assert!(rt; holds(&state, b"\x07", b"\x01\0\0\0\0\0\0\0\x02\0\0\0\0\0\0\0")?);
    Ok(())
}

#[test]
fn the_numbers_stand_once_all_are_served(rt: HostRuntime) -> Result<(), Fail> {
    let state = two_served(rt.alloc())?;
    assert!(rt; holds(&state, b"\x07", b"\x02\0\0\0\0\0\0\0\x02\0\0\0\0\0\0\0")?);
    assert_eq!(rt; size(&state)?, 1);
    Ok(())
}

#[test]
fn a_later_receipt_has_the_next_number(rt: HostRuntime) -> Result<(), Fail> {
    let alloc = rt.alloc();
    let mut state = two_served(alloc)?;
    delay(alloc, &mut state, &B)?;
    assert!(rt; holds(&state, b"\x07\x02\0\0\0\0\0\0\0", &RECEIPT)?);
    assert!(rt; holds(&state, b"\x07", b"\x02\0\0\0\0\0\0\0\x03\0\0\0\0\0\0\0")?);
    Ok(())
}
