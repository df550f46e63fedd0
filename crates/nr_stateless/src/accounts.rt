//! What a walk for some accounts searches.

ghost use Rattle.std.specs.Prelude.{◌≡◌, ◌∷◌, ◌++◌, [], IfOk, OnOk, map};
ghost use Rattle.nr_stateless.specs.Accounts.{all_below, of_account, one_key, searched_of};

use nr_bytes::{Blob, List};
use nr_columns::keys::{account_key, code_key, owner_prefixes};
use nr_ids::AccountId;
use nr_triedef::nibbles;
use nr_walk::Searched;
use std::alloc::{AllocError, Global};

/// What the keys of the delayed queue begin with.
const QUEUE: u8 = 7;

fn push_key(alloc: Global, list: &mut Vec<Searched>, key: &[u8]) -> Result<(), AllocError>
    ensures { OnOk result (list.new.items ≡ list.old.items ++ one_key key.now ∷ []) }
{
    let path = nibbles(alloc, key)?;
    list.push(Searched { path, below: false })?;
    Ok(())
}

fn push_prefix(alloc: Global, list: &mut Vec<Searched>, prefix: &[u8]) -> Result<(), AllocError>
    ensures { OnOk result (list.new.items ≡ list.old.items ++ all_below prefix.now ∷ []) }
{
    let path = nibbles(alloc, prefix)?;
    list.push(Searched { path, below: true })?;
    Ok(())
}

fn push_prefixes(
    alloc: Global,
    list: &mut Vec<Searched>,
    prefixes: &[Blob],
) -> Result<(), AllocError>
    ensures { OnOk result (list.new.items ≡ list.old.items ++ map all_below prefixes.now) }
{
    for prefix in prefixes {
        push_prefix(alloc, list, prefix.inner())?;
    }
    Ok(())
}

fn push_account(alloc: Global, list: &mut Vec<Searched>, id: &AccountId) -> Result<(), AllocError>
    ensures { OnOk result (list.new.items ≡ list.old.items ++ of_account id.now) }
{
    push_key(alloc, list, account_key(alloc, id)?.inner())?;
    push_key(alloc, list, code_key(alloc, id)?.inner())?;
    let prefixes = owner_prefixes(alloc, id)?;
    push_prefixes(alloc, list, prefixes.inner())?;
    Ok(())
}

/// The keys of each account and of its code, what the keys of all that it owns begin with, and what
/// the keys of the delayed queue begin with.
///
/// # Errors
///
/// Where memory ran out.
#[tactic(auto, unfolding(crate::specs::Accounts::searched_of))]
pub fn searched_of(alloc: Global, accounts: &[AccountId]) -> Result<List<Searched>, AllocError>
    ensures { IfOk result (λ list. list ≡ searched_of accounts.now) }
{
    let mut list = Vec::new(alloc);
    push_prefix(alloc, &mut list, &[QUEUE])?;
    for id in accounts {
        push_account(alloc, &mut list, id)?;
    }
    Ok(List::of(list))
}
