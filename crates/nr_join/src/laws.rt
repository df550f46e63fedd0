//! What holds of every offering and of the delayed queue.

ghost use Rattle.std.specs.Prelude.{◌≡◌, ◌+◌, ◌^◌, ◌≤◌, ◌∷◌, [], Some, slice_get};
ghost use Rattle.nr_config.specs.Config.{Config};
ghost use Rattle.nr_join.specs.Keeping.{IsDelayed, IsOffered, IsServed};
ghost use Rattle.nr_join.specs.Offering.{offer};
ghost use Rattle.nr_join.specs.declared.offered.Offered.{Offered};
ghost use Rattle.nr_records.specs.declared.receipt.Receipt.{Receipt};
ghost use Rattle.nr_state.specs.Changes.{with_delayed, served_front};
ghost use Rattle.nr_state.specs.Tokens.{list_tokens, world_tokens};
ghost use Rattle.nr_state.specs.Valid.{IsBounded, IsValidWorld};
ghost use Rattle.nr_state.specs.World.{World};

use nr_state::laws::{receipt_laws, token_laws, valid_world_laws, waiting_laws};

/// Offering and delaying keep a valid world valid and lose no receipt and no token, where the
/// receipt's gas price and prepaid gas fit in 64 bits, and the tokens of world and receipt together
/// are at most 2^127. It does nothing when it runs.
pub fn joining_laws()
    ensures offered { (c : Config) (w : World) (r : Receipt) (after : World) (offered : Offered)
        → IsValidWorld c w → IsBounded c r → world_tokens c w + list_tokens c (r ∷ []) ≤ 2 ^ 127
        → offer w r ≡ (after, offered) → IsOffered c w r after offered }
    ensures delayed { (c : Config) (w : World) (r : Receipt)
        → IsValidWorld c w → IsBounded c r → world_tokens c w + list_tokens c (r ∷ []) ≤ 2 ^ 127
        → IsDelayed c w r (with_delayed w r) }
    ensures served { (c : Config) (w : World) (r : Receipt)
        → IsValidWorld c w → slice_get w.delayed 0 ≡ Some r → IsServed c w r (served_front w w.delayed) }
{
    valid_world_laws();
    token_laws();
    receipt_laws();
    waiting_laws();
}
