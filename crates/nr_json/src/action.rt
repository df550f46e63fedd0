//! Actions.

ghost use Rattle.std.specs.Prelude.{◌≡◌, IfOk, codes};
ghost use Rattle.nr_bytes.specs.Answers.{Gives};
ghost use Rattle.nr_records.specs.declared.action.Action.TheVariants.{FunctionCall, AddKey};
ghost use Rattle.serde_json.specs.Find.{get};
ghost use Rattle.serde_json.specs.View.{view};
ghost use Rattle.nr_json.specs.Actions.{action_json, compact_of, args_under, args_of, deploy_of, call_of, transfer_of};
ghost use Rattle.nr_json.specs.Actions.{add_key_of, delete_key_of, delete_account_of, action_under, action_of};
ghost use Rattle.nr_json.specs.Members.{member_of};
ghost use Rattle.nr_json.specs.Variants.{tagged_json};
ghost use Rattle.nr_json.specs.declared.fault.JsonFault.TheVariants.{Memory};

use crate::fault::{JsonFault, Wrong};
use crate::floats::has_float;
use crate::form::{Form, member, put};
use crate::variants::{in_variant, named, tagged};
use nr_bytes::{Blob, Text};
use nr_ids::PublicKey;
use nr_records::{AccessKey, Action};
use serde_json::{Map, Value};
use std::alloc::{AllocError, Global};

#[tactic(auto, unfolding(crate::specs::Actions::deploy_of))]
fn deploy_of(alloc: Global, value: &Value) -> Result<Action, JsonFault>
    ensures { Gives Memory result (deploy_of (view value.now)) }
{
    let code = member(alloc, value, "code")?;
    Ok(Action::DeployContract { code })
}

/// The bytes of a text.
fn text_bytes(text: Text) -> Blob
    ensures { result ≡ text }
{
    Blob::of(text.into_inner().into_bytes())
}

/// A value's text with no space.
fn compact_of(alloc: Global, value: &Value) -> Result<Blob, JsonFault>
    ensures { Gives Memory result (compact_of (view value.now)) }
{
    if has_float(value) {
        return Err(JsonFault::whole(alloc, Wrong::NoWhole));
    }
    let text = value.to_vec(alloc)?;
    Ok(Blob::of(text))
}

/// What an object says of the arguments of a call.
fn args_under(alloc: Global, object: &Value) -> Result<Blob, JsonFault>
    ensures { Gives Memory result (args_under (get (codes "json") (view object.now)) (view object.now)) }
{
    match object.get("json") {
        Some(value) => match compact_of(alloc, value) {
            Ok(text) => Ok(text),
            Err(fault) => Err(fault.in_member(alloc, "json")),
        },
        None => {
            let text = member::<Text>(alloc, object, "text")?;
            Ok(text_bytes(text))
        }
    }
}

/// The arguments of a call: bytes in hexadecimal, or what an object says.
fn args_of(alloc: Global, value: &Value) -> Result<Blob, JsonFault>
    ensures { Gives Memory result (args_of (view value.now)) }
{
    if value.is_object() {
        args_under(alloc, value)
    } else {
        Blob::from_json(alloc, value)
    }
}

/// The member with the arguments of a call.
fn args_in(alloc: Global, object: &Value) -> Result<Blob, JsonFault>
    ensures { Gives Memory result (member_of (codes "args") args_of (view object.now)) }
{
    if !object.is_object() {
        return Err(JsonFault::whole(alloc, Wrong::NoObject));
    }
    let Some(value) = object.get("args") else {
        return Err(JsonFault::whole(alloc, Wrong::Missing).in_member(alloc, "args"));
    };
    match args_of(alloc, value) {
        Ok(args) => Ok(args),
        Err(fault) => Err(fault.in_member(alloc, "args")),
    }
}

#[tactic(auto, unfolding(crate::specs::Actions::call_of))]
fn call_of(alloc: Global, value: &Value) -> Result<Action, JsonFault>
    ensures { Gives Memory result (call_of (view value.now)) }
{
    let method = member(alloc, value, "method_name")?;
    let args = args_in(alloc, value)?;
    let gas = member(alloc, value, "gas")?;
    let deposit = member(alloc, value, "deposit")?;
    Ok(Action::FunctionCall {
        method,
        args,
        gas,
        deposit,
    })
}

#[tactic(auto, unfolding(crate::specs::Actions::transfer_of))]
fn transfer_of(alloc: Global, value: &Value) -> Result<Action, JsonFault>
    ensures { Gives Memory result (transfer_of (view value.now)) }
{
    let deposit = member(alloc, value, "deposit")?;
    Ok(Action::Transfer { deposit })
}

#[tactic(auto, unfolding(crate::specs::Actions::add_key_of))]
fn add_key_of(alloc: Global, value: &Value) -> Result<Action, JsonFault>
    ensures { Gives Memory result (add_key_of (view value.now)) }
{
    let public_key = member(alloc, value, "public_key")?;
    let access_key = member(alloc, value, "access_key")?;
    Ok(Action::AddKey {
        public_key,
        access_key,
    })
}

#[tactic(auto, unfolding(crate::specs::Actions::delete_key_of))]
fn delete_key_of(alloc: Global, value: &Value) -> Result<Action, JsonFault>
    ensures { Gives Memory result (delete_key_of (view value.now)) }
{
    let public_key = member(alloc, value, "public_key")?;
    Ok(Action::DeleteKey { public_key })
}

#[tactic(auto, unfolding(crate::specs::Actions::delete_account_of))]
fn delete_account_of(alloc: Global, value: &Value) -> Result<Action, JsonFault>
    ensures { Gives Memory result (delete_account_of (view value.now)) }
{
    let beneficiary = member(alloc, value, "beneficiary_id")?;
    Ok(Action::DeleteAccount { beneficiary })
}

/// An action that has members, by its name.
#[tactic(auto, unfolding(crate::specs::Actions::action_under))]
fn action_under(alloc: Global, name: &str, content: &Value) -> Result<Action, JsonFault>
    ensures { Gives Memory result (action_under name.now (view content.now)) }
{
    if name == "DeployContract" {
        in_variant(alloc, "DeployContract", deploy_of(alloc, content))
    } else if name == "FunctionCall" {
        in_variant(alloc, "FunctionCall", call_of(alloc, content))
    } else if name == "Transfer" {
        in_variant(alloc, "Transfer", transfer_of(alloc, content))
    } else if name == "AddKey" {
        in_variant(alloc, "AddKey", add_key_of(alloc, content))
    } else if name == "DeleteKey" {
        in_variant(alloc, "DeleteKey", delete_key_of(alloc, content))
    } else if name == "DeleteAccount" {
        in_variant(alloc, "DeleteAccount", delete_account_of(alloc, content))
    } else {
        Err(JsonFault::whole(alloc, Wrong::NoAction))
    }
}

/// An action that has one member.
fn of_one<T: Form>(alloc: Global, action: &str, name: &str, field: &T) -> Result<Value, AllocError>
    ensures { IfOk result (λ value. view value ≡ tagged_json action.now (tagged_json name.now (T.json field.now))) }
{
    let content = tagged(alloc, name, field.to_json(alloc)?)?;
    tagged(alloc, action, content)
}

fn call_json(
    alloc: Global,
    method: &Text,
    args: &Blob,
    gas: u64,
    deposit: u128,
) -> Result<Value, AllocError>
    ensures { IfOk result (λ value. view value ≡ action_json (FunctionCall method.now args.now gas deposit)) }
{
    let mut object = Map::new(alloc);
    put(&mut object, alloc, "method_name", method)?;
    put(&mut object, alloc, "args", args)?;
    put(&mut object, alloc, "gas", &gas)?;
    put(&mut object, alloc, "deposit", &deposit)?;
    tagged(alloc, "FunctionCall", Value::from(object))
}

fn add_key_json(
    alloc: Global,
    public_key: &PublicKey,
    access_key: &AccessKey,
) -> Result<Value, AllocError>
    ensures { IfOk result (λ value. view value ≡ action_json (AddKey public_key.now access_key.now)) }
{
    let mut object = Map::new(alloc);
    put(&mut object, alloc, "public_key", public_key)?;
    put(&mut object, alloc, "access_key", access_key)?;
    tagged(alloc, "AddKey", Value::from(object))
}

impl Form for Action {
    ghost json = { action_json };

    ghost reading = { action_of };

    fn from_json(alloc: Global, value: &Value) -> Result<Action, JsonFault> {
        let Some(found) = named(value) else {
            return Err(JsonFault::whole(alloc, Wrong::NoAction));
        };
        match found.content {
            Some(content) => action_under(alloc, found.name, content),
            None => if found.name == "CreateAccount" {
                Ok(Action::CreateAccount)
            } else {
                Err(JsonFault::whole(alloc, Wrong::NoAction))
            },
        }
    }

    fn to_json(&self, alloc: Global) -> Result<Value, AllocError> {
        match self {
            Action::CreateAccount => Value::try_from_str(alloc, "CreateAccount"),
            Action::DeployContract { code } => of_one(alloc, "DeployContract", "code", code),
            Action::FunctionCall {
                method,
                args,
                gas,
                deposit,
            } => call_json(alloc, method, args, *gas, *deposit),
            Action::Transfer { deposit } => of_one(alloc, "Transfer", "deposit", deposit),
            Action::AddKey {
                public_key,
                access_key,
            } => add_key_json(alloc, public_key, access_key),
            Action::DeleteKey { public_key } => {
                of_one(alloc, "DeleteKey", "public_key", public_key)
            }
            Action::DeleteAccount { beneficiary } => {
                of_one(alloc, "DeleteAccount", "beneficiary_id", beneficiary)
            }
        }
    }
}
