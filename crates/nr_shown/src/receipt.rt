//! Receipts as JSON values, with the names of NEAR's JSON.

ghost use Rattle.std.specs.Prelude.{◌≡◌, IfOk};
ghost use Rattle.serde_json.specs.View.{view};
ghost use Rattle.nr_shown.specs.Receipt.{act_json, body_json, datum_json, data_receiver_json, receipt_json};

use crate::values::{Shown, array_of, tagged};
use nr_json::Form;
use nr_records::{ActionReceipt, Body, DataReceipt, DataReceiver, Receipt};
use serde_json::{Map, Value, put};
use std::alloc::{AllocError, Global};

impl Shown for DataReceiver {
    ghost shown = { data_receiver_json };

    fn value(&self, alloc: Global) -> Result<Value, AllocError> {
        let mut object = Map::new(alloc);
        put(&mut object, alloc, "data_id", self.data_id.to_json(alloc)?)?;
        put(
            &mut object,
            alloc,
            "receiver_id",
            self.receiver.to_json(alloc)?,
        )?;
        Ok(Value::from(object))
    }
}

fn act_json(alloc: Global, act: &ActionReceipt) -> Result<Value, AllocError>
    ensures { IfOk result (λ value. view value ≡ act_json act.now) }
{
    let mut object = Map::new(alloc);
    put(&mut object, alloc, "signer_id", act.signer.to_json(alloc)?)?;
    put(
        &mut object,
        alloc,
        "signer_public_key",
        act.signer_key.to_json(alloc)?,
    )?;
    put(
        &mut object,
        alloc,
        "gas_price",
        act.gas_price.to_json(alloc)?,
    )?;
    let outputs = array_of(alloc, act.outputs.inner())?;
    put(&mut object, alloc, "output_data_receivers", outputs)?;
    put(
        &mut object,
        alloc,
        "input_data_ids",
        act.inputs.to_json(alloc)?,
    )?;
    put(&mut object, alloc, "actions", act.actions.to_json(alloc)?)?;
    Ok(Value::from(object))
}

fn datum_json(alloc: Global, datum: &DataReceipt) -> Result<Value, AllocError>
    ensures { IfOk result (λ value. view value ≡ datum_json datum.now) }
{
    let mut object = Map::new(alloc);
    put(&mut object, alloc, "data_id", datum.data_id.to_json(alloc)?)?;
    put(&mut object, alloc, "data", datum.bytes.to_json(alloc)?)?;
    Ok(Value::from(object))
}

fn body_json(alloc: Global, body: &Body) -> Result<Value, AllocError>
    ensures { IfOk result (λ value. view value ≡ body_json body.now) }
{
    match body {
        Body::Act(act) => {
            let content = act_json(alloc, act)?;
            tagged(alloc, "Action", content)
        }
        Body::Datum(datum) => {
            let content = datum_json(alloc, datum)?;
            tagged(alloc, "Data", content)
        }
    }
}

impl Shown for Receipt {
    ghost shown = { receipt_json };

    fn value(&self, alloc: Global) -> Result<Value, AllocError> {
        let mut object = Map::new(alloc);
        put(
            &mut object,
            alloc,
            "predecessor_id",
            self.predecessor.to_json(alloc)?,
        )?;
        put(
            &mut object,
            alloc,
            "receiver_id",
            self.receiver.to_json(alloc)?,
        )?;
        put(
            &mut object,
            alloc,
            "receipt_id",
            self.receipt_id.to_json(alloc)?,
        )?;
        let body = body_json(alloc, &self.body)?;
        put(&mut object, alloc, "receipt", body)?;
        Ok(Value::from(object))
    }
}
