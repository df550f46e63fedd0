//! A gathered chunk as a JSON value.

ghost use Rattle.std.specs.Prelude.{◌≡◌, IfOk, OnOk};
ghost use Rattle.serde_json.specs.Data.{string};
ghost use Rattle.serde_json.specs.View.{members_view, view};
ghost use Rattle.nr_shown.specs.Gathered.{gathered_json, with_lists, with_place};

use crate::values::{Shown, array_of, put_number};
use nr_gathered::Gathered;
use nr_ids::AccountId;
use nr_json::Form;
use serde_json::{Map, Value, put};
use std::alloc::{AllocError, Global};

impl Shown for AccountId {
    ghost shown = { string };

    fn value(&self, alloc: Global) -> Result<Value, AllocError> {
        self.to_json(alloc)
    }
}

/// Puts where the chunk stands: the boundaries, its height, its time, its price and its shard.
fn put_place(
    object: &mut Map<String, Value>,
    alloc: Global,
    gathered: &Gathered,
) -> Result<(), AllocError>
    ensures { OnOk result (members_view object.new.entries
        ≡ with_place gathered.now (members_view object.old.entries)) }
{
    let boundaries = array_of(alloc, gathered.layout.boundaries())?;
    put(object, alloc, "boundaries", boundaries)?;
    put_number(object, alloc, "height", gathered.height.0)?;
    put_number(object, alloc, "timestamp", gathered.timestamp)?;
    put(object, alloc, "price", gathered.price.to_json(alloc)?)?;
    put_number(object, alloc, "shard", u64::from(gathered.shard.0))?;
    Ok(())
}

/// Puts its transactions, the receipts that it takes, and the texts.
fn put_lists(
    object: &mut Map<String, Value>,
    alloc: Global,
    gathered: &Gathered,
) -> Result<(), AllocError>
    ensures { OnOk result (members_view object.new.entries
        ≡ with_lists gathered.now (members_view object.old.entries)) }
{
    put(
        object,
        alloc,
        "transactions",
        gathered.transactions.to_json(alloc)?,
    )?;
    let receipts = array_of(alloc, gathered.taken.inner())?;
    put(object, alloc, "receipts", receipts)?;
    put(object, alloc, "texts", gathered.texts.to_json(alloc)?)?;
    Ok(())
}

/// The JSON value of a gathered chunk: the root of the shard's state before it, the boundaries between the
/// shards, its height, its time in nanoseconds, its price of gas or null, its shard, its transactions, the
/// receipts that it takes, and the texts of nodes and values.
///
/// # Errors
///
/// Where there is no memory for it.
pub fn gathered_json(alloc: Global, gathered: &Gathered) -> Result<Value, AllocError>
    ensures { IfOk result (λ value. view value ≡ gathered_json gathered.now) }
{
    let mut object = Map::new(alloc);
    put(
        &mut object,
        alloc,
        "prior_root",
        gathered.prior_root.to_json(alloc)?,
    )?;
    put_place(&mut object, alloc, gathered)?;
    put_lists(&mut object, alloc, gathered)?;
    Ok(Value::from(object))
}
