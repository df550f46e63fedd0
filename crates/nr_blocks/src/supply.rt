//! The tokens of a genesis.

ghost use Rattle.std.specs.Prelude.{◌≡◌, ◌-◌, ◌^◌, min};
ghost use Rattle.nr_blocks.specs.Genesis.{supply};
ghost use Rattle.nr_blocks.specs.Judging.{bounded_supply};
ghost use Rattle.nr_blocks.specs.Parts.{entry_tokens};

use crate::fault::GenesisFault;
use crate::genesis_entry::GenesisEntry;

/// The most tokens that a genesis may have.
const MOST_TOKENS: u128 = 1 << 127;

fn tokens_of(entry: &GenesisEntry) -> u128
    ensures { result ≡ min (entry_tokens entry.now) (2 ^ 128 - 1) }
{
    match entry {
        GenesisEntry::Account(_, account) => account.amount.saturating_add(account.locked),
        GenesisEntry::Code(_, _) => 0,
        GenesisEntry::Key(_, _, _) => 0,
        GenesisEntry::Datum(_, _, _) => 0,
    }
}

/// The tokens of all accounts, up to the greatest number.
#[tactic(auto, using(crate::proofs::Turns::front_of, crate::proofs::Entries::supply_more))]
fn supply_of(entries: &[GenesisEntry]) -> u128
    ensures { result ≡ min (supply entries.now) (2 ^ 128 - 1) }
{
    let mut total: u128 = 0;
    let mut left = entries.len();
    while left > 0 {
        left -= 1;
        total = total.saturating_add(tokens_of(&entries[left]));
    }
    total
}

/// The tokens of all accounts, at most 2^127.
#[tactic(auto, using(crate::proofs::Entries::bounded_alike, crate::proofs::Entries::same_supply))]
pub(crate) fn bounded_supply(entries: &[GenesisEntry]) -> Result<u128, GenesisFault>
    ensures { result ≡ bounded_supply entries.now }
{
    let supply = supply_of(entries);
    if supply <= MOST_TOKENS {
        Ok(supply)
    } else {
        Err(GenesisFault::Supply)
    }
}
