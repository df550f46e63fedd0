//! Access keys as they are spelled.

ghost use Rattle.std.specs.Prelude.{◌≡◌, Some, IsSome};
ghost use Rattle.nr_records.specs.AccessKeys.{access_key_bytes, IsAccessKey};
ghost use Rattle.nr_columns.specs.SpelledKeys.{key_read};

use std::marker::Model;

/// An access key, lent as the bytes that spell it. Contracts see the key.
#[derive(Drop)]
pub struct SpelledKey<'a> {
    bytes: &'a [u8],
}

impl<'a> Model for SpelledKey<'a> {
    ghost use Rattle.nr_records.specs.declared.access_key.AccessKey.{AccessKey};
    ghost use Rattle.nr_columns.specs.SpelledKeys.{key_in, SpellsKey};

    ghost Value = { AccessKey };

    ghost view = { λ k. key_in k.bytes.now };

    ghost invariant = { λ k. SpellsKey k.bytes.now };
}

impl<'a> SpelledKey<'a> {
    /// The key that the bytes spell.
    #[tactic(auto, using(crate::proofs::SpelledKeys::is_spelled))]
    pub fn of(bytes: &'a [u8]) -> SpelledKey<'a>
        requires { IsSome (key_read bytes.now) }
        ensures { key_read bytes.now ≡ Some result }
    {
        SpelledKey { bytes }
    }

    /// The bytes that spell it.
    #[tactic(auto, using(crate::proofs::SpelledKeys::spelled_bytes, crate::proofs::SpelledKeys::spelled_fits))]
    pub fn bytes(&self) -> &'a [u8]
        ensures spelled { result.now ≡ access_key_bytes self.now }
        ensures fits { IsAccessKey self.now }
    {
        self.bytes
    }
}
