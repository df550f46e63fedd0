//! One of several forms by its name.

ghost use Rattle.std.specs.Prelude.{◌≡◌, option_map, IfOk};
ghost use Rattle.nr_bytes.specs.Answers.{Gives};
ghost use Rattle.serde_json.specs.View.{view, members_view};
ghost use Rattle.nr_json.specs.Variants.{only_member, named, tagged_json, in_variant};
ghost use Rattle.nr_json.specs.Shown.{named_in};
ghost use Rattle.nr_json.specs.declared.fault.JsonFault.TheVariants.{Memory};

use crate::fault::JsonFault;
use serde_json::{Map, Value};
use std::alloc::{AllocError, Global};

/// A name, and what stands under it where something does.
#[derive(Drop)]
pub(crate) struct Found<'a> {
    pub(crate) name: &'a str,
    pub(crate) content: Option<&'a Value>,
}

fn only_member(object: &Map<String, Value>) -> Option<Found<'_>>
    ensures { option_map named_in result ≡ only_member (members_view object.now.entries) }
{
    if object.len() != 1 {
        return None;
    }
    match object.first_key_value() {
        Some((name, content)) => Some(Found {
            name: name.as_str(),
            content: Some(content),
        }),
        None => None,
    }
}

/// The name and what stands under it: of a text that is the name, or of an object with one member.
pub(crate) fn named(value: &Value) -> Option<Found<'_>>
    ensures { option_map named_in result ≡ named (view value.now) }
{
    match value {
        Value::String(name) => Some(Found {
            name: name.as_str(),
            content: None,
        }),
        Value::Object(object) => only_member(object),
        _ => None,
    }
}

/// The same answer, with its fault in the member of this name.
pub(crate) fn in_variant<T: Drop>(
    alloc: Global,
    name: &str,
    read: Result<T, JsonFault>,
) -> Result<T, JsonFault>
    ensures { Gives Memory result (in_variant name.now read) }
{
    match read {
        Ok(value) => Ok(value),
        Err(fault) => Err(fault.in_member(alloc, name)),
    }
}

/// An object with one member.
pub(crate) fn tagged(alloc: Global, name: &str, content: Value) -> Result<Value, AllocError>
    ensures { IfOk result (λ value. view value ≡ tagged_json name.now (view content)) }
{
    let mut object = Map::new(alloc);
    serde_json::put(&mut object, alloc, name, content)?;
    Ok(Value::from(object))
}
