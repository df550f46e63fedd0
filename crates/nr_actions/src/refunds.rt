//! Receipts that give tokens back.

ghost use Rattle.std.specs.Prelude.{◌≡◌, IfOk};
ghost use Rattle.nr_actions.specs.Refunds.{refund_body, refund, deposit_refund};

use nr_bytes::List;
use nr_ids::{AccountId, Hash32, PublicKey};
use nr_records::{Action, ActionReceipt, Body, Receipt};
use std::alloc::{AllocError, Global};

fn refund_body(
    alloc: Global,
    signer: AccountId,
    signer_key: PublicKey,
    deposit: u128,
) -> Result<Body, AllocError>
    ensures { IfOk result (λ body. body ≡ refund_body signer signer_key deposit) }
{
    let transfer = Action::Transfer { deposit };
    Ok(Body::Act(ActionReceipt {
        signer,
        signer_key,
        gas_price: 0,
        outputs: List::of(Vec::new(alloc)),
        inputs: List::of(Vec::new(alloc)),
        actions: List::of(vec![in alloc; transfer]?),
    }))
}

/// A refund: a receipt from `system` with one transfer, without gas, that goes back to a signer's
/// transaction. The amount is in the ledger's smallest unit.
///
/// # Errors
///
/// Where memory ran out.
pub fn refund(
    alloc: Global,
    receiver: AccountId,
    receipt_id: Hash32,
    signer: AccountId,
    signer_key: PublicKey,
    amount: u128,
) -> Result<Receipt, AllocError>
    ensures { IfOk result (λ receipt. receipt ≡ refund receiver receipt_id signer signer_key amount) }
{
    Ok(Receipt {
        predecessor: AccountId::system(alloc)?,
        receiver,
        receipt_id,
        body: refund_body(alloc, signer, signer_key, amount)?,
    })
}

/// A refund of a deposit, which goes back to no transaction: its signer is `system` with a key of
/// zeros. The amount is in the ledger's smallest unit.
///
/// # Errors
///
/// Where memory ran out.
pub fn deposit_refund(
    alloc: Global,
    receiver: AccountId,
    receipt_id: Hash32,
    amount: u128,
) -> Result<Receipt, AllocError>
    ensures { IfOk result (λ receipt. receipt ≡ deposit_refund receiver receipt_id amount) }
{
    let signer = AccountId::system(alloc)?;
    refund(
        alloc,
        receiver,
        receipt_id,
        signer,
        PublicKey::Ed25519([0; 32]),
        amount,
    )
}
