//! Ids that are derived from a parent, a height and an ordinal.

ghost use Rattle.std.specs.Prelude.{◌≡◌};
ghost use Rattle.nr_ids.specs.Derive.{derived};

use crate::key::Hash32;
use crate::number::Height;
use sha2::{Digest, Sha256};

/// The hash that is derived from `parent` at `height` under `ordinal`: SHA-256 of the 32 bytes of
/// `parent`, then `height` and `ordinal` as 8 bytes each, the lowest first.
///
/// It takes no memory and always answers.
pub fn derive(parent: &Hash32, height: Height, ordinal: u64) -> Hash32
    ensures { result ≡ derived parent.now height.0 ordinal }
{
    let mut hasher = Sha256::new();
    hasher.update(parent.0);
    hasher.update(height.0.to_le_bytes());
    hasher.update(ordinal.to_le_bytes());
    Hash32(hasher.finalize())
}
