//! Data that came.

ghost use Rattle.std.specs.Prelude.{◌≡◌, true, OnOk};

use crate::queue_setting::{A, B, ab, holds};
use crate::setting::{State, empty_state, size};
use nr_bytes::Blob;
use nr_ids::{AccountId, Hash32};
use nr_state::queues;
use std::alloc::{AllocError, Global};
use std::test::Fail;

/// Adds a datum, where none came under its id.
pub(crate) fn add(
    alloc: Global,
    state: &mut State,
    receiver: &AccountId,
    id: &Hash32,
    bytes: &Option<Blob>,
) -> Result<(), AllocError>
    requires { state.old.whole ≡ true }
    ensures { OnOk result (state.new.whole ≡ true) }
{
    if queues::received(alloc, state, receiver, id)?.is_some() {
        return Err(AllocError);
    }
    queues::add_received(alloc, state, receiver, id, bytes)?;
    Ok(())
}

/// Adds the datum `xyz`.
fn add_xyz(
    alloc: Global,
    state: &mut State,
    receiver: &AccountId,
    id: &Hash32,
) -> Result<(), AllocError>
    requires { state.old.whole ≡ true }
    ensures { OnOk result (state.new.whole ≡ true) }
{
    let bytes = Some(Blob::of(Vec::from_slice(alloc, b"xyz")?));
    add(alloc, state, receiver, id, &bytes)?;
    Ok(())
}

fn is_xyz(bytes: &Blob) -> bool {
    bytes.inner() == b"xyz".as_slice()
}

/// Whether a datum came, whether it has bytes, and whether they are `xyz`.
fn came(
    alloc: Global,
    state: &State,
    receiver: &AccountId,
    id: &Hash32,
) -> Result<[bool; 3], AllocError> {
    match queues::received(alloc, state, receiver, id)? {
        Some(Some(bytes)) => Ok([true, true, is_xyz(&bytes)]),
        Some(None) => Ok([true, false, false]),
        None => Ok([false; 3]),
    }
}

#[test]
fn a_datum_that_came_has_its_bytes(rt: HostRuntime) -> Result<(), Fail> {
    let alloc = rt.alloc();
    let id = ab(alloc)?;
    let mut state = empty_state(alloc);
    add_xyz(alloc, &mut state, &id, &A)?;
    assert_eq!(rt; came(alloc, &state, &id, &A)?, [true; 3]);
    assert_eq!(rt; came(alloc, &state, &id, &B)?, [false; 3]);
    Ok(())
}

#[test]
fn a_datum_of_a_failed_sender_has_no_bytes(rt: HostRuntime) -> Result<(), Fail> {
    let alloc = rt.alloc();
    let id = ab(alloc)?;
    let mut state = empty_state(alloc);
    add(alloc, &mut state, &id, &A, &None)?;
    assert_eq!(rt; came(alloc, &state, &id, &A)?, [true, false, false]);
    assert!(rt; holds(&state, b"\x03ab,aaaaaaaaaaaaaaaaaaaaaaaaaaaaaaaa", b"\0")?);
    Ok(())
}

#[test]
fn a_datum_stands_under_its_receiver_and_id(rt: HostRuntime) -> Result<(), Fail> {
    let alloc = rt.alloc();
    let mut state = empty_state(alloc);
    add_xyz(alloc, &mut state, &ab(alloc)?, &A)?;
    let key = b"\x03ab,aaaaaaaaaaaaaaaaaaaaaaaaaaaaaaaa";
    assert!(rt; holds(&state, key, b"\x01\x03\0\0\0xyz")?);
    Ok(())
}

/// Takes a datum out twice.
fn cut_twice(
    alloc: Global,
    state: &mut State,
    receiver: &AccountId,
    id: &Hash32,
) -> Result<[bool; 2], AllocError>
    requires { state.old.whole ≡ true }
    ensures { OnOk result (state.new.whole ≡ true) }
{
    let first = queues::remove_received(alloc, state, receiver, id)?;
    let second = queues::remove_received(alloc, state, receiver, id)?;
    Ok([first, second])
}

#[test]
fn a_datum_goes_once(rt: HostRuntime) -> Result<(), Fail> {
    let alloc = rt.alloc();
    let id = ab(alloc)?;
    let mut state = empty_state(alloc);
    add_xyz(alloc, &mut state, &id, &A)?;
    assert_eq!(rt; cut_twice(alloc, &mut state, &id, &A)?, [true, false]);
    assert_eq!(rt; size(&state)?, 0);
    Ok(())
}
