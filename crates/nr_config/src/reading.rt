//! From JSON to the numbers of a configuration.

ghost use Rattle.std.specs.Prelude.{◌≡◌, map};
ghost use Rattle.serde_json.specs.Find.{get};
ghost use Rattle.serde_json.specs.View.{view};
ghost use Rattle.nr_bytes.specs.Answers.{GivesAs};
ghost use Rattle.nr_config.specs.Table.{table};
ghost use Rattle.nr_config.specs.Rows.{row_of};
ghost use Rattle.nr_config.specs.Reading.{object_in, named, numbers};
ghost use Rattle.nr_config.specs.declared.fault.ConfigFault.TheVariants.{Memory};

use crate::fault::ConfigFault;
use crate::table::{ENTRIES, Row, rows};
use serde_json::Value;
use std::alloc::Global;

/// The object that the bytes spell.
pub(crate) fn json_of(alloc: Global, bytes: &[u8]) -> Result<Value, ConfigFault>
    ensures { GivesAs Memory view result (object_in bytes.now) }
{
    match Value::from_slice(alloc, bytes) {
        Ok(value) if value.is_object() => Ok(value),
        Ok(_) => Err(ConfigFault::NotJson),
        Err(fault) if fault.is_memory() => Err(ConfigFault::Memory),
        Err(_) => Err(ConfigFault::NotJson),
    }
}

/// The number of one entry.
fn number_of(value: &Value, row: &Row, entry: u32) -> Result<u64, ConfigFault>
    ensures { result ≡ named entry (row_of row.now) (get row.now.name.now (view value.now)) }
{
    let found = value.get(row.name).ok_or(ConfigFault::Missing { entry })?;
    let number = found.as_u64().ok_or(ConfigFault::NotWhole { entry })?;
    if number < row.least || row.greatest < number {
        return Err(ConfigFault::OutOfRange { entry });
    }
    Ok(number)
}

/// The numbers of all entries, by some rows.
fn numbers_by(value: &Value, rows: &[Row; ENTRIES]) -> Result<[u64; ENTRIES], ConfigFault>
    ensures { result ≡ numbers 1 (map row_of rows.now) (view value.now) }
{
    let mut numbers = [0; ENTRIES];
    for (i, row) in rows.iter().enumerate() {
        numbers[i] = number_of(value, row, i as u32 + 1)?;
    }
    Ok(numbers)
}

/// The numbers of all entries.
pub(crate) fn numbers_of(value: &Value) -> Result<[u64; ENTRIES], ConfigFault>
    ensures { result ≡ numbers 1 table (view value.now) }
{
    let numbers = numbers_by(value, rows())?;
    Ok(numbers)
}
