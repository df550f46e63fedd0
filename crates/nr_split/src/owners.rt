//! Whose entry a key of the state trie is.

ghost use Rattle.std.specs.Option.{option_map};
ghost use Rattle.std.specs.Prelude.{◌≡◌, ◌≤◌, length};
ghost use Rattle.nr_cut.specs.Cut.{lives_in};
ghost use Rattle.nr_layout.specs.Layout.{shard_of};
ghost use Rattle.nr_split.specs.Owned.{is_owned};
ghost use Rattle.nr_state.specs.Entries.{has_owner};

use nr_entries::split_at_first;
use nr_ids::AccountId;
use nr_layout::Layout;

/// How many boundaries are not greater than the id.
#[tactic(auto, using(nr_layout::proofs::Counting::one_more, nr_layout::proofs::Counting::no_more))]
fn shard_of(boundaries: &[AccountId], id: &[u8]) -> u32
    requires { length boundaries.now ≤ 15 }
    ensures { result ≡ shard_of boundaries.now id.now }
{
    let mut shard = 0;
    for boundary in boundaries {
        if id.cmp(boundary.bytes()).is_ge() {
            shard += 1;
        }
    }
    shard
}

/// Whether an account lives in a shard.
fn lives_in(layout: &Layout, shard: u32, id: &[u8]) -> bool
    ensures { result ≡ lives_in layout.now shard id.now }
{
    shard_of(layout.boundaries(), id) == shard
}

/// Whether the owner before a separator lives in a shard.
fn has_owner(layout: &Layout, shard: u32, parts: Option<(&[u8], &[u8])>) -> bool
    ensures { result ≡ has_owner (lives_in layout.now shard) (option_map (λ p. (p.0.now, p.1.now)) parts.entry) }
{
    match parts {
        Some((owner, _)) => lives_in(layout, shard, owner),
        None => false,
    }
}

/// Whether a key names an owner or a receiver that lives in a shard. Those of the delayed queue
/// name none.
pub(crate) fn is_owned(layout: &Layout, shard: u32, key: &[u8]) -> bool
    ensures { result ≡ is_owned (lives_in layout.now shard) key.now }
{
    match key {
        [] => false,
        [0, id @ ..] => lives_in(layout, shard, id),
        [1, id @ ..] => lives_in(layout, shard, id),
        [2, rest @ ..] => has_owner(layout, shard, split_at_first(rest, 2)),
        [7, ..] => false,
        [_, rest @ ..] => has_owner(layout, shard, split_at_first(rest, b',')),
    }
}
