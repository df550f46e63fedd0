//! Making an account.

ghost use Rattle.std.specs.Prelude.{◌≡◌, true};
ghost use Rattle.nr_actions.specs.Actions.{is_reserved, is_no_child, created};
ghost use Rattle.nr_actions.specs.Parts.{Performs};

use crate::accounts::new_account;
use crate::effect::{Effect, Stop, failed};
use crate::failure::Failure;
use crate::frame::Frame;
use nr_config::Config;
use nr_config::entries::TOP_LEVEL_MIN_LEN;
use nr_state::ShardState;
use nr_triedef::Store;
use std::alloc::Global;

/// Whether the account is `system`, or its id is a short one without a dot and another account than
/// `registrar` makes it.
fn is_reserved(config: &Config, frame: &Frame) -> bool
    ensures { result ≡ is_reserved config.now frame.now }
{
    let id = frame.receiver.bytes();
    frame.receiver.is_system()
        || frame.receiver.is_top()
            && (id.len() as u64) < config.entry(TOP_LEVEL_MIN_LEN)
            && frame.predecessor.bytes() != b"registrar".as_slice()
}

/// Whether the id has a dot, and isn't a name, a dot and the predecessor's id.
fn is_no_child(frame: &Frame) -> bool
    ensures { result ≡ is_no_child frame.now }
{
    !frame.receiver.is_top() && !frame.receiver.is_sub_of(&frame.predecessor)
}

/// Makes the receiver's account, which acts from now on.
pub(crate) fn create<S: Store>(
    alloc: Global,
    state: &mut ShardState<S>,
    frame: &Frame,
) -> Result<Effect, Stop>
    requires { state.old.whole ≡ true }
    ensures { Performs result state.old state.new frame.now (created state.old.config state.old.world frame.now) }
{
    let found = state.account(&frame.receiver)?;
    if found.is_some() {
        return Err(failed(Failure::AccountExists));
    }
    if frame.receiver.is_implicit() {
        return Err(failed(Failure::OnlyImplicit));
    }
    if is_reserved(state.config(), frame) {
        return Err(failed(Failure::OnlyRegistrar));
    }
    if is_no_child(frame) {
        return Err(failed(Failure::NotParent));
    }
    let account = new_account(state.config(), 0);
    state.set_account(&frame.receiver, &account)?;
    Ok(Effect::Actor(frame.receiver.duplicate(alloc)?))
}
