//! Keys, code and data that are written and nothing else.

ghost use Rattle.std.specs.Prelude.{◌≡◌, true, OnOk};

use crate::setting::{
    KEY, State, empty_state, has_code, has_datum, id_of, is_absent, nonce, size, state_with, usage,
};
use nr_ids::AccountId;
use nr_records::{AccessKey, Permission};
use std::alloc::AllocError;
use std::test::Fail;

/// Writes a key, code and a datum, and nothing else.
fn put_bare(state: &mut State, id: &AccountId) -> Result<(), AllocError>
    requires { state.old.whole ≡ true }
    ensures { OnOk result (state.new.whole ≡ true) }
{
    let access = AccessKey {
        nonce: 7,
        permission: Permission::Full,
    };
    state.put_key(id, &KEY, &access)?;
    state.put_code(id, b"abc")?;
    state.put_datum(id, b"k", b"v")?;
    Ok(())
}

/// Whether there is no such account, and yet its code and its datum.
fn stand_alone(state: &State, id: &AccountId) -> Result<[bool; 3], AllocError> {
    let absent = is_absent(state, id)?;
    let code = has_code(state, id, b"abc")?;
    let datum = has_datum(state, id, b"v")?;
    Ok([absent, code, datum])
}

#[test]
fn what_is_put_needs_no_owner(rt: HostRuntime) -> Result<(), Fail> {
    let alloc = rt.alloc();
    let id = id_of(alloc, b"alice")?;
    let mut state = empty_state(alloc);
    put_bare(&mut state, &id)?;
    assert_eq!(rt; stand_alone(&state, &id)?, [true; 3]);
    assert_eq!(rt; nonce(&state, &id)?, Some(7));
    assert_eq!(rt; size(&state)?, 3);
    Ok(())
}

#[test]
fn what_is_put_leaves_its_owner(rt: HostRuntime) -> Result<(), Fail> {
    let alloc = rt.alloc();
    let id = id_of(alloc, b"alice")?;
    let mut state = state_with(alloc, &id)?;
    put_bare(&mut state, &id)?;
    assert_eq!(rt; usage(&state, &id)?, Some(100));
    assert_eq!(rt; size(&state)?, 4);
    Ok(())
}
