//! Names that are lent as they are spelled.

ghost use Rattle.std.specs.Prelude.{◌≡◌, ◌==◌, ℕ, List as Items, length, Some, IsSome};
ghost use Rattle.std.specs.List.{list_any, flat_map, AllByRecursion};
ghost use Rattle.std.specs.Str.{bytes_eq};
ghost use Rattle.nr_bytes.specs.Spelling.{IsString};
ghost use Rattle.nr_bytes.specs.Writing.{counted_bytes};
ghost use Rattle.nr_keys.specs.Names.{names_read};

use nr_bytes::counted_slice;
use std::marker::Model;

/// Names, lent as the bytes that spell their list. Contracts see the names.
#[derive(Drop)]
pub struct Names<'a> {
    bytes: &'a [u8],
}

impl<'a> Model for Names<'a> {
    ghost use Rattle.std.specs.Prelude.{List, ℕ};
    ghost use Rattle.nr_keys.specs.Names.{names_in, SpellNames};

    ghost Value = { List (List ℕ) };

    ghost view = { λ n. names_in n.bytes.now };

    ghost invariant = { λ n. SpellNames n.bytes.now };
}

fn is_same(name: &[u8], other: &[u8]) -> bool
    ensures { result ≡ bytes_eq name.now other.now }
{
    name == other
}

/// Whether a name is one of those that stand one behind the other.
fn stands_in(bytes: &[u8], name: &[u8]) -> bool
    ensures { (names : Items (Items ℕ)) → AllByRecursion IsString names → bytes.now ≡ flat_map counted_bytes names
        → result ≡ list_any (bytes_eq name.now) names }
{
    let mut rest = bytes;
    'names: while let Some(first) = counted_slice(rest) {
        if is_same(name, first) {
            return true;
        }
        rest = &rest[4 + first.len()..];
    }
    false
}

impl<'a> Names<'a> {
    /// The names whose list the bytes spell.
    #[tactic(auto, using(crate::proofs::SpelledNames::is_spelled))]
    pub(crate) fn of(bytes: &'a [u8]) -> Names<'a>
        requires { IsSome (names_read bytes.now) }
        ensures { names_read bytes.now ≡ Some result }
    {
        Names { bytes }
    }

    /// Whether there are none.
    #[tactic(auto, using(crate::proofs::SpelledNames::is_empty))]
    pub fn is_empty(&self) -> bool
        ensures { result ≡ (length self.now == 0) }
    {
        self.bytes.len() == 4
    }

    /// Whether a name is one of them.
    #[tactic(auto, using(crate::proofs::SpelledNames::behind_count))]
    pub fn contains(&self, name: &[u8]) -> bool
        ensures { result ≡ list_any (bytes_eq name.now) self.now }
    {
        stands_in(&self.bytes[4..], name)
    }
}
