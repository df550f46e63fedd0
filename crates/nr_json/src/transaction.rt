//! Transactions.

ghost use Rattle.nr_json.specs.Transactions.{transaction_json, transaction_of};

use crate::fault::JsonFault;
use crate::form::{Form, member, optional, put};
use nr_ids::Hash32;
use nr_records::Transaction;
use serde_json::{Map, Value};
use std::alloc::{AllocError, Global};

impl Form for Transaction {
    ghost json = { transaction_json };

    ghost reading = { transaction_of };

    #[tactic(auto, unfolding(crate::specs::Transactions::transaction_of))]
    fn from_json(alloc: Global, value: &Value) -> Result<Transaction, JsonFault> {
        let signer = member(alloc, value, "signer_id")?;
        let public_key = member(alloc, value, "public_key")?;
        let nonce = member(alloc, value, "nonce")?;
        let receiver = member(alloc, value, "receiver_id")?;
        let block_hash = optional::<Hash32>(alloc, value, "block_hash")?;
        let actions = member(alloc, value, "actions")?;
        Ok(Transaction {
            signer,
            public_key,
            nonce,
            receiver,
            block_hash: block_hash.unwrap_or(Hash32([0; 32])),
            actions,
        })
    }

    fn to_json(&self, alloc: Global) -> Result<Value, AllocError> {
        let mut object = Map::new(alloc);
        put(&mut object, alloc, "signer_id", &self.signer)?;
        put(&mut object, alloc, "public_key", &self.public_key)?;
        put(&mut object, alloc, "nonce", &self.nonce)?;
        put(&mut object, alloc, "receiver_id", &self.receiver)?;
        put(&mut object, alloc, "block_hash", &self.block_hash)?;
        put(&mut object, alloc, "actions", &self.actions)?;
        Ok(Value::from(object))
    }
}
