//! A part of a state as a JSON value.

ghost use Rattle.std.specs.Prelude.{◌≡◌, IfOk};
ghost use Rattle.serde_json.specs.View.{view};
ghost use Rattle.nr_shown.specs.Part.{entry_json, part_json};

use crate::values::{Shown, array_of, put_number};
use nr_columns::Entry;
use nr_json::Form;
use nr_parts::Part;
use serde_json::{Map, Value, put};
use std::alloc::{AllocError, Global};

impl Shown for Entry {
    ghost shown = { entry_json };

    fn value(&self, alloc: Global) -> Result<Value, AllocError> {
        let mut object = Map::new(alloc);
        put(&mut object, alloc, "key", self.key.to_json(alloc)?)?;
        put(&mut object, alloc, "value", self.value.to_json(alloc)?)?;
        Ok(Value::from(object))
    }
}

/// The JSON value of a part: its root, how many parts there are, its number, its entries and its texts.
///
/// # Errors
///
/// Where there is no memory for it.
pub fn part_json(alloc: Global, part: &Part) -> Result<Value, AllocError>
    ensures { IfOk result (λ value. view value ≡ part_json part.now) }
{
    let mut object = Map::new(alloc);
    put(&mut object, alloc, "root", part.root.to_json(alloc)?)?;
    put_number(&mut object, alloc, "count", u64::from(part.count))?;
    put_number(&mut object, alloc, "number", u64::from(part.number))?;
    let entries = array_of(alloc, part.entries.inner())?;
    put(&mut object, alloc, "entries", entries)?;
    put(&mut object, alloc, "texts", part.texts.to_json(alloc)?)?;
    Ok(Value::from(object))
}
