//! The root of a shard's state.

ghost use Rattle.std.specs.Prelude.{◌≡◌, ◌<◌, true, IfOk};
ghost use Rattle.nr_state.specs.Flat.{flat};
ghost use Rattle.nr_triedef.specs.Root.{root_of};

use crate::state::State;
use nr_ids::Hash32;
use nr_triedef::{Steps, bytes_of};
use std::alloc::AllocError;
use std::marker::Brand;
use std::sync::ledger::{Blank, Ledger};

fn counted_root<L: Ledger>(state: &mut State, blank: Blank) -> Result<Hash32, AllocError>
    requires name { blank.name ≡ L.name }
    requires parts { blank.parts ≡ L.parts }
    requires some { 0 < blank.parts }
    requires whole { state.old.whole ≡ true }
    ensures root { IfOk result (λ hash. hash ≡ (root_of (flat state.old.world)).hash) }
    ensures same { state.new ≡ state.old }
{
    let mut steps = Steps::<L>::new(blank);
    let root = state.root(&mut steps)?;
    Ok(Hash32(bytes_of(&root)))
}

/// The root of a state.
///
/// # Errors
///
/// Where there is no memory.
pub(crate) fn root_of(state: &mut State) -> Result<Hash32, AllocError>
    requires { state.old.whole ≡ true }
    ensures root { IfOk result (λ hash. hash ≡ (root_of (flat state.old.world)).hash) }
    ensures same { state.new ≡ state.old }
{
    counted_root::<Brand>(state, Blank::new(1))
}
