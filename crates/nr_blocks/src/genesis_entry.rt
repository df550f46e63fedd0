//! An entry of a genesis: its kinds, its reading and its writing.

ghost use Rattle.nr_bytes.specs.Fields.{mapped, pair};
ghost use Rattle.nr_records.specs.Reading.{account_id_at, blob_at};
ghost use Rattle.nr_bytes.specs.Answers.{GivesRead};
ghost use Rattle.nr_records.specs.declared.fault.RecordFault.TheVariants.{Memory};
ghost use Rattle.nr_records.specs.AccessKeys.{access_key_at};
ghost use Rattle.nr_records.specs.Ids.{key_at};
ghost use Rattle.nr_blocks.specs.GenesisFiles.{entry_at, entry_bytes, IsEntry, key_of, datum_of};
ghost use Rattle.nr_blocks.specs.EntryLaws.{entry_law};

use crate::fields::ordinal_of;
use nr_bytes::{Blob, Reader, Writer};
use nr_ids::{AccountId, PublicKey};
use nr_records::{AccessKey, Account, RecordFault, Spelled};
use std::alloc::{AllocError, Global};

/// One entry of the first state.
#[derive(Debug, PartialEq, Eq, Drop)]
pub enum GenesisEntry {
    /// An account under its id.
    Account(AccountId, Account),
    /// The contract of an account.
    Code(AccountId, Blob),
    /// A key of an account.
    Key(AccountId, PublicKey, AccessKey),
    /// A datum of an account: its key and its value.
    Datum(AccountId, Blob, Blob),
}

fn read_key(alloc: Global, reader: &mut Reader<'_>) -> Result<GenesisEntry, RecordFault>
    ensures { GivesRead Memory result reader.new
        (mapped key_of (pair account_id_at (pair key_at access_key_at)) reader.old) }
{
    let id = AccountId::read(alloc, reader)?;
    let key = PublicKey::read(alloc, reader)?;
    let access = AccessKey::read(alloc, reader)?;
    Ok(GenesisEntry::Key(id, key, access))
}

fn read_datum(alloc: Global, reader: &mut Reader<'_>) -> Result<GenesisEntry, RecordFault>
    ensures { GivesRead Memory result reader.new
        (mapped datum_of (pair account_id_at (pair blob_at blob_at)) reader.old) }
{
    let id = AccountId::read(alloc, reader)?;
    let key = Blob::read(alloc, reader)?;
    let value = Blob::read(alloc, reader)?;
    Ok(GenesisEntry::Datum(id, key, value))
}

impl Spelled for GenesisEntry {
    ghost spelling = { entry_bytes };

    ghost fits = { IsEntry };

    ghost reading = { entry_at };

    ghost law = { entry_law };

    #[tactic(auto, unfolding(crate::specs::GenesisFiles::entry_at))]
    fn read(alloc: Global, reader: &mut Reader<'_>) -> Result<GenesisEntry, RecordFault> {
        let at = reader.at();
        let mut ahead = reader.fork();
        let entry = match ordinal_of(&mut ahead)? {
            0 => GenesisEntry::Account(
                AccountId::read(alloc, &mut ahead)?,
                Account::read(alloc, &mut ahead)?,
            ),
            1 => GenesisEntry::Code(
                AccountId::read(alloc, &mut ahead)?,
                Blob::read(alloc, &mut ahead)?,
            ),
            2 => read_key(alloc, &mut ahead)?,
            3 => read_datum(alloc, &mut ahead)?,
            _ => return Err(RecordFault::BadOrdinal { at }),
        };
        *reader = ahead;
        Ok(entry)
    }

    fn write(&self, writer: &mut Writer) -> Result<(), AllocError> {
        match self {
            GenesisEntry::Account(id, account) => {
                writer.put_u8(0)?;
                id.write(writer)?;
                account.write(writer)
            }
            GenesisEntry::Code(id, code) => {
                writer.put_u8(1)?;
                id.write(writer)?;
                code.write(writer)
            }
            GenesisEntry::Key(id, key, access) => {
                writer.put_u8(2)?;
                id.write(writer)?;
                key.write(writer)?;
                access.write(writer)
            }
            GenesisEntry::Datum(id, key, value) => {
                writer.put_u8(3)?;
                id.write(writer)?;
                key.write(writer)?;
                value.write(writer)
            }
        }
    }

    fn duplicate(&self, alloc: Global) -> Result<GenesisEntry, AllocError> {
        Ok(match self {
            GenesisEntry::Account(id, account) => {
                GenesisEntry::Account(id.duplicate(alloc)?, *account)
            }
            GenesisEntry::Code(id, code) => {
                GenesisEntry::Code(id.duplicate(alloc)?, code.duplicate(alloc)?)
            }
            GenesisEntry::Key(id, key, access) => {
                GenesisEntry::Key(id.duplicate(alloc)?, *key, access.duplicate(alloc)?)
            }
            GenesisEntry::Datum(id, key, value) => GenesisEntry::Datum(
                id.duplicate(alloc)?,
                key.duplicate(alloc)?,
                value.duplicate(alloc)?,
            ),
        })
    }
}
