//! A root as a word.

ghost use Rattle.std.specs.Prelude.{◌≡◌, true};
ghost use Rattle.nr_top.specs.Roots.{root_in};
ghost use Rattle.nr_words.specs.Forms.{is_digest};

use hex::FromHex;
use nr_ids::Hash32;

/// The root that 64 digits of base 16 spell.
pub(crate) fn root_in(digits: &str) -> Hash32
    requires { is_digest digits.now ≡ true }
    ensures { result ≡ root_in digits.now }
{
    match <[u8; 32] as FromHex>::from_hex(digits) {
        Ok(bytes) => Hash32(bytes),
        Err(_) => unreachable!(),
    }
}
