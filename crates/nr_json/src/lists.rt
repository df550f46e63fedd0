//! Lists, and what may be absent.

ghost use Rattle.std.specs.Prelude.{◌≡◌, map, IfOk};
ghost use Rattle.nr_bytes.specs.Answers.{GivesAs};
ghost use Rattle.serde_json.specs.View.{view, items_view};
ghost use Rattle.nr_json.specs.Lists.{list_json, list_of, each_of, option_json, option_of};
ghost use Rattle.nr_json.specs.declared.fault.JsonFault.TheVariants.{Memory};

use crate::fault::{JsonFault, Wrong};
use crate::form::Form;
use nr_bytes::List;
use serde_json::Value;
use std::alloc::{AllocError, Global};

fn items_of<T: Form>(alloc: Global, values: &[Value]) -> Result<Vec<T>, JsonFault>
    ensures { GivesAs Memory (λ items. items.items) result (each_of T.reading 0 (items_view values.now)) }
{
    let mut items = Vec::new(alloc);
    for (number, value) in values.iter().enumerate() {
        match T::from_json(alloc, value) {
            Ok(item) => items.push(item)?,
            Err(fault) => return Err(fault.in_item(alloc, number)),
        }
    }
    Ok(items)
}

/// The JSON values of items.
pub(crate) fn values_of<T: Form>(alloc: Global, items: &[T]) -> Result<Vec<Value>, AllocError>
    ensures { IfOk result (λ values. map view values.items ≡ map T.json items.now) }
{
    let mut values = Vec::new(alloc);
    for item in items {
        values.push(item.to_json(alloc)?)?;
    }
    Ok(values)
}

impl<T: Form> Form for List<T> {
    ghost json = { list_json T.json };

    ghost reading = { list_of T.reading };

    fn from_json(alloc: Global, value: &Value) -> Result<List<T>, JsonFault> {
        match value.as_array() {
            Some(values) => Ok(List::of(items_of(alloc, values)?)),
            None => Err(JsonFault::whole(alloc, Wrong::NoList)),
        }
    }

    fn to_json(&self, alloc: Global) -> Result<Value, AllocError> {
        Ok(Value::from(values_of(alloc, self.inner())?))
    }
}

/// Nothing is JSON's null.
impl<T: Form> Form for Option<T> {
    ghost json = { option_json T.json };

    ghost reading = { option_of T.reading };

    fn from_json(alloc: Global, value: &Value) -> Result<Option<T>, JsonFault> {
        if value.is_null() {
            return Ok(None);
        }
        Ok(Some(T::from_json(alloc, value)?))
    }

    fn to_json(&self, alloc: Global) -> Result<Value, AllocError> {
        match self {
            None => Ok(Value::Null),
            Some(value) => value.to_json(alloc),
        }
    }
}
