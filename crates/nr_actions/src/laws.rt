//! What holds of every action.

ghost use Rattle.std.specs.Prelude.{◌≡◌, ℕ, ◌+◌, ◌^◌, ◌≤◌, Bool, List};
ghost use Rattle.nr_actions.specs.Actions.{Acts, Fails, HasRoom, act};
ghost use Rattle.nr_actions.specs.Keeping.{IsDone};
ghost use Rattle.nr_actions.specs.declared.frame.Frame.{Frame};
ghost use Rattle.nr_config.specs.Config.{Config};
ghost use Rattle.nr_fees.specs.Fees.{attached, deposit_of};
ghost use Rattle.nr_records.specs.declared.action.Action.{Action};
ghost use Rattle.nr_state.specs.Calls.{Called, IsCaller};
ghost use Rattle.nr_state.specs.Tokens.{world_tokens};
ghost use Rattle.nr_state.specs.Valid.{IsValidWorld};
ghost use Rattle.nr_state.specs.World.{World};
ghost use Rattle.nr_state.specs.declared.calls.CallContext.{CallContext};

use nr_state::laws::{token_laws, valid_world_laws};

/// An action that is done keeps a valid world valid and loses no token; one that fails burns no more
/// gas than is attached to it. It does nothing when it runs.
pub fn action_laws()
    ensures done { (c : Config) (call : World → CallContext → Called) (w : World) (f : Frame) (last : Bool)
        (a : Action) (after : World) (g : Frame)
        → IsCaller c call → IsValidWorld c w → world_tokens c w + deposit_of a ≤ 2 ^ 127
        → act c call w f last a ≡ Acts after g → IsDone c w f a after g }
    // What an action brings fits in the receiver's balance, where all tokens are within 2^127.
    ensures room { (c : Config) (w : World) (id : List ℕ) (deposit : ℕ) → world_tokens c w + deposit ≤ 2 ^ 127
        → HasRoom w id deposit }
    ensures failed { (c : Config) (call : World → CallContext → Called) (w : World) (f : Frame) (last : Bool)
        (a : Action) (kind part burnt : ℕ)
        → IsCaller c call → act c call w f last a ≡ Fails kind part burnt → burnt ≤ attached a }
{
    valid_world_laws();
    token_laws();
}
