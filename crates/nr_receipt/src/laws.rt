//! What holds of every execution and of every settlement.

ghost use Rattle.std.specs.Prelude.{◌≡◌, ℕ, ◌+◌, ◌^◌, ◌≤◌, false, List, Option};
ghost use Rattle.nr_config.specs.Config.{Config, IsValidConfig};
ghost use Rattle.nr_fees.specs.Fees.{receipt_tokens};
ghost use Rattle.nr_ids.specs.Grammar.{is_system};
ghost use Rattle.nr_receipt.specs.Execution.{execute, settle_clash};
ghost use Rattle.nr_receipt.specs.Keeping.{HasSmallCalls, IsExecuted, IsSettled};
ghost use Rattle.nr_records.specs.declared.receipt.ActionReceipt.{ActionReceipt};
ghost use Rattle.nr_records.specs.declared.receipt.Body.TheVariants.{Act};
ghost use Rattle.nr_records.specs.declared.receipt.Receipt.{Receipt};
ghost use Rattle.nr_state.specs.Calls.{Called, IsCaller};
ghost use Rattle.nr_state.specs.Tokens.{world_tokens};
ghost use Rattle.nr_state.specs.Valid.{IsBounded, IsValidWorld};
ghost use Rattle.nr_state.specs.World.{World};
ghost use Rattle.nr_state.specs.declared.calls.CallContext.{CallContext};
ghost use Rattle.nr_state.specs.declared.place.Place.{Place};

use nr_actions::laws::action_laws;
use nr_state::laws::{token_laws, valid_world_laws};

/// Executions and settlements keep a valid world valid and lose no token, and what they make is
/// bounded. It does nothing when it runs.
pub fn execution_laws()
    // Of a receipt within its bounds, on a valid world, where all tokens are within 2^127.
    ensures executed { (c : Config) (call : World → CallContext → Called) (w : World) (r : Receipt)
        (act : ActionReceipt) (inputs : List (Option (List ℕ))) (place : Place)
        → IsValidConfig c → IsCaller c call → IsValidWorld c w → r.body ≡ Act act → IsBounded c r
        → world_tokens c w + receipt_tokens c r ≤ 2 ^ 127
        → IsExecuted c w r (execute c call w r act inputs place) }
    ensures settled { (c : Config) (r : Receipt) (act : ActionReceipt) (place : Place)
        → r.body ≡ Act act → IsBounded c r → IsSettled c r (settle_clash c r act place) }
    // Of a receipt that isn't the system's, whose prepaid gas fits in 64 bits.
    ensures small { (c : Config) (r : Receipt) → IsBounded c r → is_system r.predecessor ≡ false
        → HasSmallCalls r.body }
{
    action_laws();
    valid_world_laws();
    token_laws();
}
