//! Values, lists of them, and members of an object.

ghost use Rattle.std.specs.Prelude.{◌≡◌, map, IfOk, OnOk};
ghost use Rattle.serde_json.specs.Data.{put as with_member};
ghost use Rattle.serde_json.specs.View.{members_view, view};
ghost use Rattle.nr_json.specs.Lists.{list_json};
ghost use Rattle.nr_json.specs.Plain.{number_json};
ghost use Rattle.nr_json.specs.Variants.{tagged_json};

use serde_json::{Map, Value, put};
use std::alloc::{AllocError, Global};

/// What is shown as a JSON value.
pub(crate) trait Shown: Sized {
    ghost use Rattle.serde_json.specs.Data.{Data};

    /// The value.
    ghost shown: { Self → Data };

    /// The value.
    ///
    /// # Errors
    ///
    /// Where there is no memory for it.
    fn value(&self, alloc: Global) -> Result<Value, AllocError>
        ensures { IfOk result (λ value. view value ≡ shown self.now) };
}

fn values_of<T: Shown>(alloc: Global, items: &[T]) -> Result<Vec<Value>, AllocError>
    ensures { IfOk result (λ values. map view values.items ≡ map T.shown items.now) }
{
    let mut values = Vec::new(alloc);
    for item in items {
        values.push(item.value(alloc)?)?;
    }
    Ok(values)
}

/// The array of some items.
pub(crate) fn array_of<T: Shown>(alloc: Global, items: &[T]) -> Result<Value, AllocError>
    ensures { IfOk result (λ value. view value ≡ list_json T.shown items.now) }
{
    Ok(Value::from(values_of(alloc, items)?))
}

/// Puts a number into an object.
pub(crate) fn put_number(
    object: &mut Map<String, Value>,
    alloc: Global,
    name: &str,
    number: u64,
) -> Result<(), AllocError>
    ensures { OnOk result (members_view object.new.entries
        ≡ with_member name.now (number_json number) (members_view object.old.entries)) }
{
    put(object, alloc, name, Value::from(number))
}

/// An object with one member.
pub(crate) fn tagged(alloc: Global, name: &str, content: Value) -> Result<Value, AllocError>
    ensures { IfOk result (λ value. view value ≡ tagged_json name.now (view content)) }
{
    let mut object = Map::new(alloc);
    put(&mut object, alloc, name, content)?;
    Ok(Value::from(object))
}
