//! Ids, hashes and keys as fields of records.

ghost use Rattle.nr_bytes.specs.Writing.{counted_bytes};
ghost use Rattle.nr_records.specs.Reading.{account_id_at};
ghost use Rattle.nr_records.specs.Ids.{IsId, hash_at, key_at};
ghost use Rattle.nr_records.specs.IdLaws.{id_law, hash_law, key_law};
ghost use Rattle.nr_ids.specs.Keys.{hash_bytes, IsHash, key_bytes, IsKey};

use crate::fault::RecordFault;
use crate::fields::{fixed_of, lent_text_of, u8_of};
use crate::spelled::Spelled;
use nr_bytes::{Reader, Writer};
use nr_ids::{AccountId, Hash32, IdFault, PublicKey};
use std::alloc::{AllocError, Global};

impl Spelled for AccountId {
    ghost spelling = { counted_bytes };

    ghost fits = { IsId };

    ghost reading = { account_id_at };

    ghost law = { id_law };

    #[tactic(auto, unfolding(crate::specs::Reading::account_id_at))]
    fn read(alloc: Global, reader: &mut Reader<'_>) -> Result<AccountId, RecordFault> {
        let at = reader.at();
        let mut ahead = reader.fork();
        let text = lent_text_of(&mut ahead)?;
        match AccountId::parse(alloc, text.as_bytes()) {
            Ok(id) => {
                *reader = ahead;
                Ok(id)
            }
            Err(IdFault::Memory) => Err(RecordFault::Memory),
            Err(_) => Err(RecordFault::BadAccountId { at }),
        }
    }

    fn write(&self, writer: &mut Writer) -> Result<(), AllocError> {
        writer.put_bytes(self.bytes())
    }

    fn duplicate(&self, alloc: Global) -> Result<AccountId, AllocError> {
        AccountId::duplicate(self, alloc)
    }
}

impl Spelled for Hash32 {
    ghost spelling = { hash_bytes };

    ghost fits = { IsHash };

    ghost reading = { hash_at };

    ghost law = { hash_law };

    fn read(_alloc: Global, reader: &mut Reader<'_>) -> Result<Hash32, RecordFault> {
        Ok(Hash32(reader.fixed::<32>()?))
    }

    fn write(&self, writer: &mut Writer) -> Result<(), AllocError> {
        writer.put_raw(&self.0)
    }

    fn duplicate(&self, _alloc: Global) -> Result<Hash32, AllocError> {
        Ok(*self)
    }
}

impl Spelled for PublicKey {
    ghost spelling = { key_bytes };

    ghost fits = { IsKey };

    ghost reading = { key_at };

    ghost law = { key_law };

    #[tactic(auto, unfolding(crate::specs::Ids::key_at))]
    fn read(_alloc: Global, reader: &mut Reader<'_>) -> Result<PublicKey, RecordFault> {
        let at = reader.at();
        let mut ahead = reader.fork();
        let key = match u8_of(&mut ahead)? {
            0 => PublicKey::Ed25519(fixed_of::<32>(&mut ahead)?),
            1 => PublicKey::Secp256k1(fixed_of::<64>(&mut ahead)?),
            _ => return Err(RecordFault::BadOrdinal { at }),
        };
        *reader = ahead;
        Ok(key)
    }

    fn write(&self, writer: &mut Writer) -> Result<(), AllocError> {
        match self {
            PublicKey::Ed25519(key) => {
                writer.put_u8(0)?;
                writer.put_raw(key)
            }
            PublicKey::Secp256k1(key) => {
                writer.put_u8(1)?;
                writer.put_raw(key)
            }
        }
    }

    fn duplicate(&self, _alloc: Global) -> Result<PublicKey, AllocError> {
        Ok(*self)
    }
}
