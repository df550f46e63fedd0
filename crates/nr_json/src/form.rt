//! What has a JSON form, and the members of an object.

ghost use Rattle.std.specs.Prelude.{◌≡◌, IfOk, OnOk};
ghost use Rattle.nr_bytes.specs.Answers.{Gives};
ghost use Rattle.serde_json.specs.Data.{put as with_member};
ghost use Rattle.serde_json.specs.View.{view, members_view};
ghost use Rattle.nr_json.specs.Members.{member_of, optional_of, with_optional};
ghost use Rattle.nr_json.specs.declared.fault.JsonFault.TheVariants.{Memory};

use crate::fault::{JsonFault, Wrong};
use serde_json::{Map, Value};
use std::alloc::{AllocError, Global};

/// A record, or a field of one, that stands in JSON.
pub trait Form: Sized + Drop {
    ghost use Rattle.serde_json.specs.Data.{Data};
    ghost use Rattle.nr_json.specs.Faults.{Read};

    /// The JSON value that stands for it.
    ghost json: { Self → Data };

    /// What a JSON value stands for, or the first fault.
    ghost reading: { Data → Read Self };

    /// What a JSON value stands for.
    ///
    /// # Errors
    ///
    /// The first fault, in the order of the fields, with the path of the member; `Memory`.
    fn from_json(alloc: Global, value: &Value) -> Result<Self, JsonFault>
        ensures { Gives Memory result (reading (view value.now)) };

    /// The JSON value that stands for it.
    ///
    /// # Errors
    ///
    /// Where there is no memory for it.
    fn to_json(&self, alloc: Global) -> Result<Value, AllocError>
        ensures { IfOk result (λ value. view value ≡ json self.now) };
}

/// A member that must be there.
pub(crate) fn member<T: Form>(alloc: Global, object: &Value, name: &str) -> Result<T, JsonFault>
    ensures { Gives Memory result (member_of name.now T.reading (view object.now)) }
{
    if !object.is_object() {
        return Err(JsonFault::whole(alloc, Wrong::NoObject));
    }
    let Some(value) = object.get(name) else {
        return Err(JsonFault::whole(alloc, Wrong::Missing).in_member(alloc, name));
    };
    match T::from_json(alloc, value) {
        Ok(field) => Ok(field),
        Err(fault) => Err(fault.in_member(alloc, name)),
    }
}

/// A member that may be left out.
pub(crate) fn optional<T: Form>(
    alloc: Global,
    object: &Value,
    name: &str,
) -> Result<Option<T>, JsonFault>
    ensures { Gives Memory result (optional_of name.now T.reading (view object.now)) }
{
    if !object.is_object() {
        return Err(JsonFault::whole(alloc, Wrong::NoObject));
    }
    let Some(value) = object.get(name) else {
        return Ok(None);
    };
    match T::from_json(alloc, value) {
        Ok(field) => Ok(Some(field)),
        Err(fault) => Err(fault.in_member(alloc, name)),
    }
}

/// Puts a member into an object.
pub(crate) fn put<T: Form>(
    object: &mut Map<String, Value>,
    alloc: Global,
    name: &str,
    field: &T,
) -> Result<(), AllocError>
    ensures { OnOk result (members_view object.new.entries
        ≡ with_member name.now (T.json field.now) (members_view object.old.entries)) }
{
    let value = field.to_json(alloc)?;
    serde_json::put(object, alloc, name, value)
}

/// Puts a member into an object, where there is something.
pub(crate) fn put_optional<T: Form>(
    object: &mut Map<String, Value>,
    alloc: Global,
    name: &str,
    field: &Option<T>,
) -> Result<(), AllocError>
    ensures { OnOk result (members_view object.new.entries
        ≡ with_optional name.now T.json field.now (members_view object.old.entries)) }
{
    match field {
        None => Ok(()),
        Some(value) => put(object, alloc, name, value),
    }
}
