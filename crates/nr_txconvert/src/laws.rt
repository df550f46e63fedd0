//! What holds of every conversion.

ghost use Rattle.std.specs.Prelude.{◌≡◌, Ok};
ghost use Rattle.nr_config.specs.Config.{Config};
ghost use Rattle.nr_records.specs.declared.transaction.Transaction.{Transaction};
ghost use Rattle.nr_state.specs.Valid.{IsValidWorld};
ghost use Rattle.nr_state.specs.World.{World};
ghost use Rattle.nr_state.specs.declared.place.Place.{Place};
ghost use Rattle.nr_txconvert.specs.Conversion.{convert};
ghost use Rattle.nr_txconvert.specs.Keeping.{IsPaid};
ghost use Rattle.nr_txconvert.specs.declared.converted.Converted.{Converted};

use nr_state::laws::{token_laws, valid_world_laws};

/// A conversion keeps a valid world valid and no token is lost, and what its receipt is like. It
/// does nothing when it runs.
pub fn conversion_laws()
    ensures { (c : Config) (w : World) (tx : Transaction) (place : Place) (after : World) (made : Converted)
        → IsValidWorld c w → convert c w tx place ≡ Ok (after, made) → IsPaid c w place.price after made }
{
    valid_world_laws();
    token_laws();
}
