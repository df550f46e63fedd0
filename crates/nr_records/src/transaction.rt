//! Transactions: reading, writing, copying.

ghost use Rattle.nr_records.specs.Transactions.{transaction_at, transaction_bytes, IsTransaction};
ghost use Rattle.nr_records.specs.TransactionLaw.{transaction_law};

use crate::action::Action;
use crate::fault::RecordFault;
use crate::spelled::Spelled;
use nr_bytes::{List, Reader, Writer};
use nr_ids::{AccountId, Hash32, PublicKey};
use std::alloc::{AllocError, Global};

/// What a signer asks of a receiver. It carries no signature.
#[derive(Debug, PartialEq, Eq, Drop)]
pub struct Transaction {
    pub signer: AccountId,
    /// The key of the signer with which it is signed.
    pub public_key: PublicKey,
    /// It is above the nonces of all earlier transactions of the key.
    pub nonce: u64,
    pub receiver: AccountId,
    /// The hash of a block. It is carried and not examined.
    pub block_hash: Hash32,
    /// They are done in this order, all or none.
    pub actions: List<Action>,
}

impl Spelled for Transaction {
    ghost spelling = { transaction_bytes };

    ghost fits = { IsTransaction };

    ghost reading = { transaction_at };

    ghost law = { transaction_law };

    #[tactic(auto, unfolding(crate::specs::Transactions::transaction_at))]
    fn read(alloc: Global, reader: &mut Reader<'_>) -> Result<Transaction, RecordFault> {
        let mut ahead = reader.fork();
        let signer = AccountId::read(alloc, &mut ahead)?;
        let public_key = PublicKey::read(alloc, &mut ahead)?;
        let nonce = u64::read(alloc, &mut ahead)?;
        let receiver = AccountId::read(alloc, &mut ahead)?;
        let block_hash = Hash32::read(alloc, &mut ahead)?;
        let actions = List::<Action>::read(alloc, &mut ahead)?;
        *reader = ahead;
        Ok(Transaction {
            signer,
            public_key,
            nonce,
            receiver,
            block_hash,
            actions,
        })
    }

    fn write(&self, writer: &mut Writer) -> Result<(), AllocError> {
        self.signer.write(writer)?;
        self.public_key.write(writer)?;
        self.nonce.write(writer)?;
        self.receiver.write(writer)?;
        self.block_hash.write(writer)?;
        self.actions.write(writer)
    }

    fn duplicate(&self, alloc: Global) -> Result<Transaction, AllocError> {
        Ok(Transaction {
            signer: self.signer.duplicate(alloc)?,
            public_key: self.public_key,
            nonce: self.nonce,
            receiver: self.receiver.duplicate(alloc)?,
            block_hash: self.block_hash,
            actions: self.actions.duplicate(alloc)?,
        })
    }
}
