//! The record of an account: reading, writing, copying.

ghost use Rattle.nr_records.specs.Accounts.{account_at, account_bytes, IsAccount};
ghost use Rattle.nr_records.specs.AccountLaw.{account_law};

use crate::fault::RecordFault;
use crate::spelled::Spelled;
use nr_bytes::{Reader, Writer};
use nr_ids::Hash32;
use std::alloc::{AllocError, Global};

/// What the ledger holds of an account.
#[derive(Clone, Copy, Debug, PartialEq, Eq)]
pub struct Account {
    /// What it can spend, in the smallest unit of the ledger.
    pub amount: u128,
    /// What is locked, in the same unit.
    pub locked: u128,
    /// The SHA-256 of its code, or zeros where it has none.
    pub code_hash: Hash32,
    /// How many bytes its state is counted as.
    pub storage_usage: u64,
}

impl Spelled for Account {
    ghost spelling = { account_bytes };

    ghost fits = { IsAccount };

    ghost reading = { account_at };

    ghost law = { account_law };

    #[tactic(auto, unfolding(crate::specs::Accounts::account_at))]
    fn read(alloc: Global, reader: &mut Reader<'_>) -> Result<Account, RecordFault> {
        let mut ahead = reader.fork();
        let amount = u128::read(alloc, &mut ahead)?;
        let locked = u128::read(alloc, &mut ahead)?;
        let code_hash = Hash32::read(alloc, &mut ahead)?;
        let storage_usage = u64::read(alloc, &mut ahead)?;
        *reader = ahead;
        Ok(Account {
            amount,
            locked,
            code_hash,
            storage_usage,
        })
    }

    fn write(&self, writer: &mut Writer) -> Result<(), AllocError> {
        self.amount.write(writer)?;
        self.locked.write(writer)?;
        self.code_hash.write(writer)?;
        self.storage_usage.write(writer)
    }

    fn duplicate(&self, _alloc: Global) -> Result<Account, AllocError> {
        Ok(*self)
    }
}
