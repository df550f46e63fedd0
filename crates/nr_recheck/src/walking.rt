//! What the texts give of the state before the chunk.

ghost use Rattle.std.specs.Prelude.{◌≡◌, ◌++◌, [], map, IfOk, OnOk};
ghost use Rattle.nr_bytes.specs.Answers.{Gives};
ghost use Rattle.nr_walk.specs.Texts.{texts_of};
ghost use Rattle.nr_recheck.specs.Rechecking.{memory_fault, queued, touched_by, walked};

use crate::fault::RecheckFault;
use nr_bytes::List;
use nr_columns::Entry;
use nr_gathered::Gathered;
use nr_ids::AccountId;
use nr_records::{Receipt, Transaction};
use nr_stateless::Partial;
use nr_walk::Texts;
use nr_worlds::check_queue;
use std::alloc::{AllocError, Global};

fn push_signers(
    alloc: Global,
    ids: &mut Vec<AccountId>,
    txs: &[Transaction],
) -> Result<(), AllocError>
    ensures { OnOk result (ids.new.items ≡ ids.old.items ++ map (λ tx. tx.signer) txs.now) }
{
    for tx in txs {
        ids.push(tx.signer.duplicate(alloc)?)?;
    }
    Ok(())
}

fn push_receivers(
    alloc: Global,
    ids: &mut Vec<AccountId>,
    list: &[Receipt],
) -> Result<(), AllocError>
    ensures { OnOk result (ids.new.items ≡ ids.old.items ++ map (λ r. r.receiver) list.now) }
{
    for receipt in list {
        ids.push(receipt.receiver.duplicate(alloc)?)?;
    }
    Ok(())
}

/// The accounts that the chunk touches: the signers of its transactions, and the receivers of the delayed receipts and
/// of those that it takes.
pub(crate) fn touched(
    alloc: Global,
    gathered: &Gathered,
    delayed: &[Receipt],
) -> Result<List<AccountId>, AllocError>
    ensures { IfOk result (λ ids. ids ≡ touched_by gathered.now delayed.now) }
{
    let mut ids = Vec::new(alloc);
    push_signers(alloc, &mut ids, gathered.transactions.inner())?;
    push_receivers(alloc, &mut ids, delayed)?;
    push_receivers(alloc, &mut ids, gathered.taken.inner())?;
    Ok(List::of(ids))
}

/// What stands beside the entries of accounts and of the delayed queue, and these entries.
pub(crate) fn walk(
    alloc: Global,
    texts: &Texts,
    gathered: &Gathered,
    accounts: &List<AccountId>,
) -> Result<(Partial, List<Entry>), RecheckFault>
    requires { texts.now ≡ texts_of gathered.now.texts }
    ensures { Gives memory_fault result (walked gathered.now accounts.now) }
{
    let found = Partial::walk(alloc, texts, &gathered.prior_root, accounts)?;
    Ok(found)
}

fn no_accounts(alloc: Global) -> List<AccountId>
    ensures { result ≡ [] }
{
    List::of(Vec::new(alloc))
}

/// The delayed receipts, the front first, by a walk for no account.
#[tactic(auto, unfolding(crate::specs::Rechecking::queued))]
pub(crate) fn queued(
    alloc: Global,
    texts: &Texts,
    gathered: &Gathered,
) -> Result<List<Receipt>, RecheckFault>
    requires { texts.now ≡ texts_of gathered.now.texts }
    ensures { Gives memory_fault result (queued gathered.now) }
{
    let (_, entries) = walk(alloc, texts, gathered, &no_accounts(alloc))?;
    let delayed = check_queue(alloc, &entries)?;
    Ok(delayed)
}
