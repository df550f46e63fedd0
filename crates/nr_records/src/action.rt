//! Actions: reading, writing, copying.

ghost use Rattle.nr_records.specs.Actions.{action_at, action_bytes, IsAction, call_of, call_at};
ghost use Rattle.nr_records.specs.ActionLaw.{action_law};
ghost use Rattle.nr_bytes.specs.Fields.{mapped};
ghost use Rattle.nr_bytes.specs.Answers.{GivesRead};
ghost use Rattle.nr_records.specs.declared.fault.RecordFault.TheVariants.{Memory};

use crate::access_key::AccessKey;
use crate::fault::RecordFault;
use crate::fields::u8_of;
use crate::spelled::Spelled;
use nr_bytes::{Blob, Reader, Text, Writer};
use nr_ids::{AccountId, PublicKey};
use std::alloc::{AllocError, Global};

/// What a transaction or a receipt asks of its receiver. Amounts are in the smallest unit of the ledger.
#[derive(Debug, PartialEq, Eq, Drop)]
pub enum Action {
    /// Makes the account.
    CreateAccount,
    /// Gives the account this code, a WebAssembly module.
    DeployContract {
        code: Blob,
    },
    /// Calls a method of the account's code with at most so much gas, and gives the account the deposit.
    FunctionCall {
        method: Text,
        args: Blob,
        gas: u64,
        deposit: u128,
    },
    /// Gives the account so much.
    Transfer {
        deposit: u128,
    },
    /// Gives the account a key.
    AddKey {
        public_key: PublicKey,
        access_key: AccessKey,
    },
    /// Takes a key from the account.
    DeleteKey {
        public_key: PublicKey,
    },
    /// Removes the account and gives what it had to the beneficiary.
    DeleteAccount {
        beneficiary: AccountId,
    },
}

fn read_call(alloc: Global, reader: &mut Reader<'_>) -> Result<Action, RecordFault>
    ensures { GivesRead Memory result reader.new (mapped call_of call_at reader.old) }
{
    let method = Text::read(alloc, reader)?;
    let args = Blob::read(alloc, reader)?;
    let gas = u64::read(alloc, reader)?;
    let deposit = u128::read(alloc, reader)?;
    Ok(Action::FunctionCall {
        method,
        args,
        gas,
        deposit,
    })
}

impl Spelled for Action {
    ghost spelling = { action_bytes };

    ghost fits = { IsAction };

    ghost reading = { action_at };

    ghost law = { action_law };

    #[tactic(auto, unfolding(crate::specs::Actions::action_at))]
    fn read(alloc: Global, reader: &mut Reader<'_>) -> Result<Action, RecordFault> {
        let at = reader.at();
        let mut ahead = reader.fork();
        let action = match u8_of(&mut ahead)? {
            0 => Action::CreateAccount,
            1 => Action::DeployContract {
                code: Blob::read(alloc, &mut ahead)?,
            },
            2 => read_call(alloc, &mut ahead)?,
            3 => Action::Transfer {
                deposit: u128::read(alloc, &mut ahead)?,
            },
            4 => return Err(RecordFault::Stake { at }),
            5 => Action::AddKey {
                public_key: PublicKey::read(alloc, &mut ahead)?,
                access_key: AccessKey::read(alloc, &mut ahead)?,
            },
            6 => Action::DeleteKey {
                public_key: PublicKey::read(alloc, &mut ahead)?,
            },
            7 => Action::DeleteAccount {
                beneficiary: AccountId::read(alloc, &mut ahead)?,
            },
            _ => return Err(RecordFault::BadOrdinal { at }),
        };
        *reader = ahead;
        Ok(action)
    }

    fn write(&self, writer: &mut Writer) -> Result<(), AllocError> {
        match self {
            Action::CreateAccount => writer.put_u8(0),
            Action::DeployContract { code } => {
                writer.put_u8(1)?;
                code.write(writer)
            }
            Action::FunctionCall {
                method,
                args,
                gas,
                deposit,
            } => {
                writer.put_u8(2)?;
                method.write(writer)?;
                args.write(writer)?;
                gas.write(writer)?;
                deposit.write(writer)
            }
            Action::Transfer { deposit } => {
                writer.put_u8(3)?;
                deposit.write(writer)
            }
            Action::AddKey {
                public_key,
                access_key,
            } => {
                writer.put_u8(5)?;
                public_key.write(writer)?;
                access_key.write(writer)
            }
            Action::DeleteKey { public_key } => {
                writer.put_u8(6)?;
                public_key.write(writer)
            }
            Action::DeleteAccount { beneficiary } => {
                writer.put_u8(7)?;
                beneficiary.write(writer)
            }
        }
    }

    fn duplicate(&self, alloc: Global) -> Result<Action, AllocError> {
        Ok(match self {
            Action::CreateAccount => Action::CreateAccount,
            Action::DeployContract { code } => Action::DeployContract {
                code: code.duplicate(alloc)?,
            },
            Action::FunctionCall {
                method,
                args,
                gas,
                deposit,
            } => Action::FunctionCall {
                method: method.duplicate(alloc)?,
                args: args.duplicate(alloc)?,
                gas: *gas,
                deposit: *deposit,
            },
            Action::Transfer { deposit } => Action::Transfer { deposit: *deposit },
            Action::AddKey {
                public_key,
                access_key,
            } => Action::AddKey {
                public_key: *public_key,
                access_key: access_key.duplicate(alloc)?,
            },
            Action::DeleteKey { public_key } => Action::DeleteKey {
                public_key: *public_key,
            },
            Action::DeleteAccount { beneficiary } => Action::DeleteAccount {
                beneficiary: beneficiary.duplicate(alloc)?,
            },
        })
    }
}
