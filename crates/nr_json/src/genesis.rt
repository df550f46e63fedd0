//! The first state of a chain, as a person states it.

ghost use Rattle.std.specs.Prelude.{◌≡◌, IfOk, OnOk};
ghost use Rattle.nr_bytes.specs.Answers.{Gives};
ghost use Rattle.serde_json.specs.View.{view, members_view};
ghost use Rattle.nr_json.specs.Genesis.{with_kind, account_of, account_entry_of, code_entry_of, key_entry_of};
ghost use Rattle.nr_json.specs.Genesis.{datum_entry_of, entry_json, entry_under, entry_of, genesis_json, genesis_of};
ghost use Rattle.nr_json.specs.declared.fault.JsonFault.TheVariants.{Memory};
ghost use Rattle.nr_json.specs.declared.genesis.StatedEntry.TheVariants as entry;

use crate::fault::{JsonFault, Wrong};
use crate::form::{Form, member, optional, put, put_optional};
use nr_bytes::{Blob, List, Text};
use nr_ids::{AccountId, Hash32, PublicKey};
use nr_records::AccessKey;
use serde_json::{Map, Value};
use std::alloc::{AllocError, Global};

/// What is stated of an account. Amounts are in the smallest unit of the ledger.
#[derive(Debug, Drop)]
pub struct StatedAccount {
    pub amount: u128,
    pub locked: u128,
    /// The SHA-256 of its code, or zeros where it has none. It may be left out.
    pub code_hash: Option<Hash32>,
    /// How many bytes its state is counted as. It may be left out.
    pub storage_usage: Option<u64>,
}

/// One entry of the first state, as it is stated.
#[derive(Debug, Drop)]
pub enum StatedEntry {
    /// An account under its id.
    Account(AccountId, StatedAccount),
    /// The contract of an account.
    Code(AccountId, Blob),
    /// A key of an account.
    Key(AccountId, PublicKey, AccessKey),
    /// A datum of an account: its key and its value.
    Datum(AccountId, Blob, Blob),
}

/// The first state of a chain, as it is stated.
#[derive(Debug, Drop)]
pub struct StatedGenesis {
    /// The boundaries between the shards.
    pub boundaries: List<AccountId>,
    pub entries: List<StatedEntry>,
}

#[tactic(auto, unfolding(crate::specs::Genesis::account_of))]
fn account_of(alloc: Global, value: &Value) -> Result<StatedAccount, JsonFault>
    ensures { Gives Memory result (account_of (view value.now)) }
{
    let amount = member(alloc, value, "amount")?;
    let locked = member(alloc, value, "locked")?;
    let code_hash = optional(alloc, value, "code_hash")?;
    let storage_usage = optional(alloc, value, "storage_usage")?;
    Ok(StatedAccount {
        amount,
        locked,
        code_hash,
        storage_usage,
    })
}

#[tactic(auto, unfolding(crate::specs::Genesis::account_entry_of))]
fn account_entry_of(alloc: Global, value: &Value) -> Result<StatedEntry, JsonFault>
    ensures { Gives Memory result (account_entry_of (view value.now)) }
{
    let id = member(alloc, value, "account_id")?;
    let account = account_of(alloc, value)?;
    Ok(StatedEntry::Account(id, account))
}

#[tactic(auto, unfolding(crate::specs::Genesis::code_entry_of))]
fn code_entry_of(alloc: Global, value: &Value) -> Result<StatedEntry, JsonFault>
    ensures { Gives Memory result (code_entry_of (view value.now)) }
{
    let id = member(alloc, value, "account_id")?;
    let code = member(alloc, value, "code")?;
    Ok(StatedEntry::Code(id, code))
}

#[tactic(auto, unfolding(crate::specs::Genesis::key_entry_of))]
fn key_entry_of(alloc: Global, value: &Value) -> Result<StatedEntry, JsonFault>
    ensures { Gives Memory result (key_entry_of (view value.now)) }
{
    let id = member(alloc, value, "account_id")?;
    let public_key = member(alloc, value, "public_key")?;
    let access_key = member(alloc, value, "access_key")?;
    Ok(StatedEntry::Key(id, public_key, access_key))
}

#[tactic(auto, unfolding(crate::specs::Genesis::datum_entry_of))]
fn datum_entry_of(alloc: Global, value: &Value) -> Result<StatedEntry, JsonFault>
    ensures { Gives Memory result (datum_entry_of (view value.now)) }
{
    let id = member(alloc, value, "account_id")?;
    let key = member(alloc, value, "key")?;
    let datum = member(alloc, value, "value")?;
    Ok(StatedEntry::Datum(id, key, datum))
}

/// An entry of this kind.
fn entry_under(alloc: Global, kind: &str, value: &Value) -> Result<StatedEntry, JsonFault>
    ensures { Gives Memory result (entry_under kind.now (view value.now)) }
{
    if kind == "account" {
        account_entry_of(alloc, value)
    } else if kind == "code" {
        code_entry_of(alloc, value)
    } else if kind == "key" {
        key_entry_of(alloc, value)
    } else if kind == "datum" {
        datum_entry_of(alloc, value)
    } else {
        Err(JsonFault::whole(alloc, Wrong::NoKind).in_member(alloc, "kind"))
    }
}

fn account_json(alloc: Global, id: &AccountId, account: &StatedAccount) -> Result<Value, AllocError>
    ensures { IfOk result (λ value. view value ≡ entry_json (entry.Account id.now account.now)) }
{
    let mut object = Map::new(alloc);
    put(&mut object, alloc, "amount", &account.amount)?;
    put(&mut object, alloc, "locked", &account.locked)?;
    put_optional(&mut object, alloc, "code_hash", &account.code_hash)?;
    put_optional(&mut object, alloc, "storage_usage", &account.storage_usage)?;
    put(&mut object, alloc, "account_id", id)?;
    put_kind(&mut object, alloc, "account")?;
    Ok(Value::from(object))
}

fn put_kind(object: &mut Map<String, Value>, alloc: Global, kind: &str) -> Result<(), AllocError>
    ensures { OnOk result (members_view object.new.entries ≡ with_kind kind.now (members_view object.old.entries)) }
{
    let value = Value::try_from_str(alloc, kind)?;
    serde_json::put(object, alloc, "kind", value)
}

fn code_json(alloc: Global, id: &AccountId, code: &Blob) -> Result<Value, AllocError>
    ensures { IfOk result (λ value. view value ≡ entry_json (entry.Code id.now code.now)) }
{
    let mut object = Map::new(alloc);
    put(&mut object, alloc, "code", code)?;
    put(&mut object, alloc, "account_id", id)?;
    put_kind(&mut object, alloc, "code")?;
    Ok(Value::from(object))
}

fn key_json(
    alloc: Global,
    id: &AccountId,
    public_key: &PublicKey,
    access_key: &AccessKey,
) -> Result<Value, AllocError>
    ensures { IfOk result (λ value. view value ≡ entry_json (entry.Key id.now public_key.now access_key.now)) }
{
    let mut object = Map::new(alloc);
    put(&mut object, alloc, "public_key", public_key)?;
    put(&mut object, alloc, "access_key", access_key)?;
    put(&mut object, alloc, "account_id", id)?;
    put_kind(&mut object, alloc, "key")?;
    Ok(Value::from(object))
}

fn datum_json(alloc: Global, id: &AccountId, key: &Blob, datum: &Blob) -> Result<Value, AllocError>
    ensures { IfOk result (λ value. view value ≡ entry_json (entry.Datum id.now key.now datum.now)) }
{
    let mut object = Map::new(alloc);
    put(&mut object, alloc, "key", key)?;
    put(&mut object, alloc, "value", datum)?;
    put(&mut object, alloc, "account_id", id)?;
    put_kind(&mut object, alloc, "datum")?;
    Ok(Value::from(object))
}

impl Form for StatedEntry {
    ghost json = { entry_json };

    ghost reading = { entry_of };

    #[tactic(auto, unfolding(crate::specs::Genesis::entry_of))]
    fn from_json(alloc: Global, value: &Value) -> Result<StatedEntry, JsonFault> {
        let kind: Text = member(alloc, value, "kind")?;
        entry_under(alloc, kind.inner(), value)
    }

    fn to_json(&self, alloc: Global) -> Result<Value, AllocError> {
        match self {
            StatedEntry::Account(id, account) => account_json(alloc, id, account),
            StatedEntry::Code(id, code) => code_json(alloc, id, code),
            StatedEntry::Key(id, public_key, access_key) => {
                key_json(alloc, id, public_key, access_key)
            }
            StatedEntry::Datum(id, key, datum) => datum_json(alloc, id, key, datum),
        }
    }
}

impl Form for StatedGenesis {
    ghost json = { genesis_json };

    ghost reading = { genesis_of };

    #[tactic(auto, unfolding(crate::specs::Genesis::genesis_of))]
    fn from_json(alloc: Global, value: &Value) -> Result<StatedGenesis, JsonFault> {
        let boundaries = member(alloc, value, "boundaries")?;
        let entries = member(alloc, value, "entries")?;
        Ok(StatedGenesis {
            boundaries,
            entries,
        })
    }

    fn to_json(&self, alloc: Global) -> Result<Value, AllocError> {
        let mut object = Map::new(alloc);
        put(&mut object, alloc, "boundaries", &self.boundaries)?;
        put(&mut object, alloc, "entries", &self.entries)?;
        Ok(Value::from(object))
    }
}
