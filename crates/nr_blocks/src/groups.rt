//! What is seen of entries that stand behind their accounts in one walk, without a map.

ghost use Rattle.std.specs.Prelude.{◌≡◌, if◌then◌else◌, List, true, [], Some, None, IfOk, Ok};
ghost use Rattle.std.specs.Option.{option_copied};
ghost use Rattle.nr_ids.specs.Grammar.{is_system};
ghost use Rattle.nr_blocks.specs.Groups.{is_again, again, known_after, grouped};
ghost use Rattle.nr_blocks.specs.Groups.{states, ahead, lead, are_stated, LeadsOn};
ghost use Rattle.nr_blocks.specs.Judging.{each, has_owner};
ghost use Rattle.nr_blocks.specs.declared.genesis_entry.GenesisEntry.{GenesisEntry as Entries};

use crate::genesis_entry::GenesisEntry;
use crate::owners::{sum_of, usage_of};
use nr_config::Config;
use nr_ids::AccountId;
use std::alloc::{AllocError, Global};

fn is_again(id: &AccountId, known: &[u8]) -> bool
    ensures { result ≡ is_again known.now id.now }
{
    let bytes = id.bytes();
    !known.is_empty() && bytes == known
}

// The id once more, where it is the one that is known; the empty one stands for none.
fn again<'a>(id: &'a AccountId, known: &[u8]) -> Option<&'a [u8]>
    ensures { option_copied result ≡ again known.now id.now }
{
    if is_again(id, known) {
        Some(id.bytes())
    } else {
        None
    }
}

// The id, where it isn't the system's.
fn plain(id: &AccountId) -> Option<&[u8]>
    ensures { option_copied result ≡ (if is_system id.now then None else Some id.now) }
{
    if id.is_system() {
        None
    } else {
        Some(id.bytes())
    }
}

// The id of an account that the entry shows to stand, where this one is known to.
fn known_after<'a>(entry: &'a GenesisEntry, known: &[u8]) -> Option<&'a [u8]>
    ensures { option_copied result ≡ known_after known.now entry.now }
{
    match entry {
        GenesisEntry::Account(id, _) => plain(id),
        GenesisEntry::Code(id, _) => again(id, known),
        GenesisEntry::Key(id, _, _) => again(id, known),
        GenesisEntry::Datum(id, _, _) => again(id, known),
    }
}

/// Whether each entry is an account, or has the owner of the one before it. Then each has an owner,
/// and no set of ids is made to see that.
pub(crate) fn are_grouped(entries: &[GenesisEntry]) -> bool
    ensures owned { result ≡ true → each (has_owner entries.now) entries.now ≡ Ok tt }
    ensures grouped { result ≡ true → grouped [] entries.now ≡ true }
{
    let mut known: &[u8] = &[];
    for index in 0..entries.len() {
        let Some(next) = known_after(&entries[index], known) else {
            return false;
        };
        known = next;
    }
    true
}

// Whether the entry, where it is an account, states these bytes.
fn states(entry: &GenesisEntry, bytes: u128) -> bool
    ensures { result ≡ states entry.now bytes }
{
    match entry {
        GenesisEntry::Account(_, account) => u128::from(account.storage_usage) == bytes,
        GenesisEntry::Code(_, _) => true,
        GenesisEntry::Key(_, _, _) => true,
        GenesisEntry::Datum(_, _, _) => true,
    }
}

// Of so many bytes from the entry on, those before the next account: none, where it is one.
fn ahead(entry: &GenesisEntry, bytes: u128) -> u128
    ensures { result ≡ ahead entry.now bytes }
{
    match entry {
        GenesisEntry::Account(_, _) => 0,
        GenesisEntry::Code(_, _) => bytes,
        GenesisEntry::Key(_, _, _) => bytes,
        GenesisEntry::Datum(_, _, _) => bytes,
    }
}

// The bytes of the entries from one on, before the next account; and whether that one states its own
// with those behind it, where it is an account.
#[derive(Clone, Copy)]
struct Front {
    stated: bool,
    bytes: u128,
}

fn lead_with(
    alloc: Global,
    entry: &GenesisEntry,
    config: &Config,
    behind: u128,
) -> Result<Front, AllocError>
    ensures { IfOk result (λ front. front.stated ≡ true → (es : List Entries) → lead config.now es ≡ behind
        → are_stated config.now es ≡ true → LeadsOn config.now entry.now es front.bytes) }
{
    let own = usage_of(alloc, entry, config)?;
    let all = sum_of(own, behind)?;
    let stated = states(entry, all);
    let bytes = ahead(entry, all);
    Ok(Front { stated, bytes })
}

/// Whether each account states its own bytes with those of the entries before the next account.
pub(crate) fn are_stated(
    alloc: Global,
    entries: &[GenesisEntry],
    config: &Config,
) -> Result<bool, AllocError>
    ensures { IfOk result (λ stated. stated ≡ true → are_stated config.now entries.now ≡ true) }
{
    let mut behind: u128 = 0;
    let mut left = entries.len();
    while left > 0 {
        left -= 1;
        let front = lead_with(alloc, &entries[left], config, behind)?;
        let stated = front.stated;
        if !stated {
            return Ok(false);
        }
        behind = front.bytes;
    }
    Ok(true)
}
