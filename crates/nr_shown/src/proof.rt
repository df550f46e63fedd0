//! A proof as a JSON value.

ghost use Rattle.std.specs.Prelude.{◌≡◌, IfOk};
ghost use Rattle.serde_json.specs.View.{view};
ghost use Rattle.nr_shown.specs.Proof.{proof_json};

use crate::values::put_number;
use nr_json::Form;
use nr_outproof::Proof;
use serde_json::{Map, Value, put};
use std::alloc::{AllocError, Global};

/// The JSON value of a proof: its kind, the height, the shard, the place and the count of items, the item, and
/// the path.
///
/// # Errors
///
/// Where there is no memory for it.
pub fn proof_json(alloc: Global, proof: &Proof) -> Result<Value, AllocError>
    ensures { IfOk result (λ value. view value ≡ proof_json proof.now) }
{
    let mut object = Map::new(alloc);
    let kind = Value::try_from_str(alloc, proof.kind.word())?;
    put(&mut object, alloc, "kind", kind)?;
    put_number(&mut object, alloc, "height", proof.height.0)?;
    put_number(&mut object, alloc, "shard", u64::from(proof.shard.0))?;
    put_number(&mut object, alloc, "place", proof.place)?;
    put_number(&mut object, alloc, "count", proof.count)?;
    put(&mut object, alloc, "item", proof.item.to_json(alloc)?)?;
    put(&mut object, alloc, "path", proof.path.to_json(alloc)?)?;
    Ok(Value::from(object))
}
