//! Access keys.

ghost use Rattle.nr_bytes.specs.Answers.{Gives};
ghost use Rattle.serde_json.specs.View.{view};
ghost use Rattle.nr_json.specs.AccessKeys.{call_permission_json, call_permission_of, permission_json, call_of};
ghost use Rattle.nr_json.specs.AccessKeys.{permission_under, permission_of, access_key_json, access_key_of};
ghost use Rattle.nr_json.specs.declared.fault.JsonFault.TheVariants.{Memory};

use crate::fault::{JsonFault, Wrong};
use crate::form::{Form, member, put};
use crate::variants::{in_variant, named, tagged};
use nr_records::{AccessKey, CallPermission, Permission};
use serde_json::{Map, Value};
use std::alloc::{AllocError, Global};

impl Form for CallPermission {
    ghost json = { call_permission_json };

    ghost reading = { call_permission_of };

    #[tactic(auto, unfolding(crate::specs::AccessKeys::call_permission_of))]
    fn from_json(alloc: Global, value: &Value) -> Result<CallPermission, JsonFault> {
        let allowance = member(alloc, value, "allowance")?;
        let receiver = member(alloc, value, "receiver_id")?;
        let methods = member(alloc, value, "method_names")?;
        Ok(CallPermission {
            allowance,
            receiver,
            methods,
        })
    }

    fn to_json(&self, alloc: Global) -> Result<Value, AllocError> {
        let mut object = Map::new(alloc);
        put(&mut object, alloc, "allowance", &self.allowance)?;
        put(&mut object, alloc, "receiver_id", &self.receiver)?;
        put(&mut object, alloc, "method_names", &self.methods)?;
        Ok(Value::from(object))
    }
}

#[tactic(auto, unfolding(crate::specs::AccessKeys::call_of))]
fn call_of(alloc: Global, value: &Value) -> Result<Permission, JsonFault>
    ensures { Gives Memory result (call_of (view value.now)) }
{
    Ok(Permission::Call(CallPermission::from_json(alloc, value)?))
}

/// A permission that has members, by its name.
fn permission_under(alloc: Global, name: &str, content: &Value) -> Result<Permission, JsonFault>
    ensures { Gives Memory result (permission_under name.now (view content.now)) }
{
    if name == "FunctionCall" {
        in_variant(alloc, "FunctionCall", call_of(alloc, content))
    } else {
        Err(JsonFault::whole(alloc, Wrong::NoPermission))
    }
}

impl Form for Permission {
    ghost json = { permission_json };

    ghost reading = { permission_of };

    fn from_json(alloc: Global, value: &Value) -> Result<Permission, JsonFault> {
        let Some(found) = named(value) else {
            return Err(JsonFault::whole(alloc, Wrong::NoPermission));
        };
        match found.content {
            Some(content) => permission_under(alloc, found.name, content),
            None => if found.name == "FullAccess" {
                Ok(Permission::Full)
            } else {
                Err(JsonFault::whole(alloc, Wrong::NoPermission))
            },
        }
    }

    fn to_json(&self, alloc: Global) -> Result<Value, AllocError> {
        match self {
            Permission::Call(calls) => tagged(alloc, "FunctionCall", calls.to_json(alloc)?),
            Permission::Full => Value::try_from_str(alloc, "FullAccess"),
        }
    }
}

impl Form for AccessKey {
    ghost json = { access_key_json };

    ghost reading = { access_key_of };

    #[tactic(auto, unfolding(crate::specs::AccessKeys::access_key_of))]
    fn from_json(alloc: Global, value: &Value) -> Result<AccessKey, JsonFault> {
        let nonce = member(alloc, value, "nonce")?;
        let permission = member(alloc, value, "permission")?;
        Ok(AccessKey { nonce, permission })
    }

    fn to_json(&self, alloc: Global) -> Result<Value, AllocError> {
        let mut object = Map::new(alloc);
        put(&mut object, alloc, "nonce", &self.nonce)?;
        put(&mut object, alloc, "permission", &self.permission)?;
        Ok(Value::from(object))
    }
}
