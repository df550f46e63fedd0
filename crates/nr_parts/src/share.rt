//! One of the parts of a trie by memory usage, and its offsets.

ghost use Rattle.std.specs.Prelude.{◌≡◌, ◌<◌, ◌^◌};
ghost use Rattle.nr_parts.specs.Offsets.{has, meets, first_offset, end_offset};

/// The part of a number, of so many parts of a trie of so much memory usage, in bytes.
#[derive(Clone, Copy, Debug)]
pub struct Share {
    pub whole: u64,
    pub count: u32,
    pub number: u32,
}

/// Whether a value at this offset belongs to the part.
pub(crate) fn has(share: Share, at: u128) -> bool
    requires low { at < 2 ^ 95 }
    ensures { result ≡ has share at }
{
    if share.whole == 0 {
        return share.number == 0;
    }
    at * share.count as u128 / share.whole as u128 == share.number as u128
}

fn first_offset(share: Share) -> u128
    requires { 0 < share.count }
    ensures { result ≡ first_offset share }
{
    let count = share.count as u128;
    (share.number as u128 * share.whole as u128 + (count - 1)) / count
}

fn end_offset(share: Share) -> u128
    requires { 0 < share.count }
    ensures { result ≡ end_offset share }
{
    let count = share.count as u128;
    ((share.number as u128 + 1) * share.whole as u128 + (count - 1)) / count
}

/// Whether one of the offsets from this one on, as many as the usage, is the part's.
pub(crate) fn meets(share: Share, at: u128, usage: u64) -> bool
    requires some { 0 < share.count }
    requires low { at < 2 ^ 95 }
    ensures { result ≡ meets share at usage }
{
    let end = at + usage as u128;
    at.max(first_offset(share)) < end.min(end_offset(share))
}
