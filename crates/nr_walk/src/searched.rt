//! What a walk searches.

ghost use Rattle.std.specs.Prelude.{◌≡◌};
ghost use Rattle.nr_walk.specs.Searched.{is_met, is_found, looks, finds};

use nr_bytes::Blob;

/// A searched key, or a prefix under which all keys are searched.
#[derive(Drop)]
pub struct Searched {
    /// The key or the prefix, by nibbles.
    pub path: Blob,
    /// Whether it is a prefix.
    pub below: bool,
}

pub(crate) fn is_met(one: &Searched, place: &[u8]) -> bool
    ensures { result ≡ is_met place.now one.now }
{
    let path = one.path.inner();
    path.starts_with(place) || one.below && place.starts_with(path)
}

pub(crate) fn is_found(one: &Searched, key: &[u8]) -> bool
    ensures { result ≡ is_found key.now one.now }
{
    let path = one.path.inner();
    key.starts_with(path) && (one.below || key.len() == path.len())
}

/// Whether a node at a place is looked at for itself: where the place is a prefix of a searched key
/// or prefix, or is below a searched prefix.
#[tactic(auto, unfolding(crate::specs::Searched::looks))]
pub fn looks(searched: &[Searched], place: &[u8]) -> bool
    ensures { result ≡ looks searched.now place.now }
{
    searched.iter().any(|one| is_met(one, place))
}

/// Whether the entry of a key is found.
#[tactic(auto, unfolding(crate::specs::Searched::finds))]
pub fn finds(searched: &[Searched], key: &[u8]) -> bool
    ensures { result ≡ finds searched.now key.now }
{
    searched.iter().any(|one| is_found(one, key))
}
