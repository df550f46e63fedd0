//! The accounts that a chunk touches.

ghost use Rattle.std.specs.Prelude.{◌≡◌, ◌++◌, map, IfOk, OnOk};
ghost use Rattle.nr_records.specs.declared.receipt.Receipt.{Receipt as AnyReceipt};
ghost use Rattle.nr_records.specs.declared.transaction.Transaction.{Transaction as AnyTransaction};

use nr_bytes::List;
use nr_ids::AccountId;
use nr_records::{Receipt, Spelled, Transaction};
use std::alloc::{AllocError, Global};

fn add_signers(
    alloc: Global,
    accounts: &mut Vec<AccountId>,
    transactions: &[Transaction],
) -> Result<(), AllocError>
    ensures { OnOk result (accounts.new.items
        ≡ accounts.old.items ++ map (λ (tx : AnyTransaction). tx.signer) transactions.now) }
{
    for transaction in transactions {
        accounts.push(transaction.signer.duplicate(alloc)?)?;
    }
    Ok(())
}

fn add_receivers(
    alloc: Global,
    accounts: &mut Vec<AccountId>,
    receipts: &[Receipt],
) -> Result<(), AllocError>
    ensures { OnOk result (accounts.new.items
        ≡ accounts.old.items ++ map (λ (r : AnyReceipt). r.receiver) receipts.now) }
{
    for receipt in receipts {
        accounts.push(receipt.receiver.duplicate(alloc)?)?;
    }
    Ok(())
}

/// The signers of transactions, the receivers of the delayed receipts and those of the receipts that are taken.
pub(crate) fn touched_by(
    alloc: Global,
    transactions: &[Transaction],
    delayed: &[Receipt],
    taken: &[Receipt],
) -> Result<List<AccountId>, AllocError>
    ensures { IfOk result (λ ids. ids ≡ map (λ (tx : AnyTransaction). tx.signer) transactions.now
        ++ (map (λ (r : AnyReceipt). r.receiver) delayed.now ++ map (λ (r : AnyReceipt). r.receiver) taken.now)) }
{
    let mut accounts = Vec::new(alloc);
    add_signers(alloc, &mut accounts, transactions)?;
    add_receivers(alloc, &mut accounts, delayed)?;
    add_receivers(alloc, &mut accounts, taken)?;
    Ok(List::of(accounts))
}
