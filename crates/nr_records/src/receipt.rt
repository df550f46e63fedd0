//! Receipts of actions and of data: reading, writing, copying.

ghost use Rattle.nr_records.specs.Receipts.{data_receiver_at, data_receiver_bytes, IsDataReceiver, data_receipt_at};
ghost use Rattle.nr_records.specs.Receipts.{data_receipt_bytes, IsDataReceipt, action_receipt_at, action_receipt_bytes};
ghost use Rattle.nr_records.specs.Receipts.{IsActionReceipt, body_at, body_bytes, IsBody, receipt_at, receipt_bytes};
ghost use Rattle.nr_records.specs.Receipts.{IsReceipt};
ghost use Rattle.nr_records.specs.ReceiptLaws.{data_receiver_law, data_receipt_law, action_receipt_law, body_law};
ghost use Rattle.nr_records.specs.ReceiptLaws.{receipt_law};

use crate::action::Action;
use crate::fault::RecordFault;
use crate::fields::u8_of;
use crate::spelled::Spelled;
use nr_bytes::{Blob, List, Reader, Writer};
use nr_ids::{AccountId, Hash32, PublicKey};
use std::alloc::{AllocError, Global};

/// What goes from account to account: actions or a datum.
#[derive(Debug, PartialEq, Eq, Drop)]
pub struct Receipt {
    /// The account that made it.
    pub predecessor: AccountId,
    /// The account that it is for.
    pub receiver: AccountId,
    pub receipt_id: Hash32,
    pub body: Body,
}

/// What a receipt is of.
#[derive(Debug, PartialEq, Eq, Drop)]
pub enum Body {
    /// Actions, which wait for the data that they need.
    Act(ActionReceipt),
    /// A datum, for which a receipt of actions may wait.
    Datum(DataReceipt),
}

/// Actions on the receiver.
#[derive(Debug, PartialEq, Eq, Drop)]
pub struct ActionReceipt {
    /// The account whose transaction it goes back to.
    pub signer: AccountId,
    /// The key that signed that transaction.
    pub signer_key: PublicKey,
    /// What one unit of gas was bought at, in the smallest unit of the ledger.
    pub gas_price: u128,
    /// Who gets the result, in order.
    pub outputs: List<DataReceiver>,
    /// The ids of the data that it waits for, in order.
    pub inputs: List<Hash32>,
    /// They are done in this order, all or none.
    pub actions: List<Action>,
}

/// An account that gets a result, and the id under which it gets it.
#[derive(Debug, PartialEq, Eq, Drop)]
pub struct DataReceiver {
    pub data_id: Hash32,
    pub receiver: AccountId,
}

/// A result that another receipt gave.
#[derive(Debug, PartialEq, Eq, Drop)]
pub struct DataReceipt {
    pub data_id: Hash32,
    /// The result, or `None` where that receipt failed.
    pub bytes: Option<Blob>,
}

impl Spelled for DataReceiver {
    ghost spelling = { data_receiver_bytes };

    ghost fits = { IsDataReceiver };

    ghost reading = { data_receiver_at };

    ghost law = { data_receiver_law };

    #[tactic(auto, unfolding(crate::specs::Receipts::data_receiver_at))]
    fn read(alloc: Global, reader: &mut Reader<'_>) -> Result<DataReceiver, RecordFault> {
        let mut ahead = reader.fork();
        let data_id = Hash32::read(alloc, &mut ahead)?;
        let receiver = AccountId::read(alloc, &mut ahead)?;
        *reader = ahead;
        Ok(DataReceiver { data_id, receiver })
    }

    fn write(&self, writer: &mut Writer) -> Result<(), AllocError> {
        self.data_id.write(writer)?;
        self.receiver.write(writer)
    }

    fn duplicate(&self, alloc: Global) -> Result<DataReceiver, AllocError> {
        Ok(DataReceiver {
            data_id: self.data_id,
            receiver: self.receiver.duplicate(alloc)?,
        })
    }
}

impl Spelled for DataReceipt {
    ghost spelling = { data_receipt_bytes };

    ghost fits = { IsDataReceipt };

    ghost reading = { data_receipt_at };

    ghost law = { data_receipt_law };

    #[tactic(auto, unfolding(crate::specs::Receipts::data_receipt_at))]
    fn read(alloc: Global, reader: &mut Reader<'_>) -> Result<DataReceipt, RecordFault> {
        let mut ahead = reader.fork();
        let data_id = Hash32::read(alloc, &mut ahead)?;
        let bytes = Option::<Blob>::read(alloc, &mut ahead)?;
        *reader = ahead;
        Ok(DataReceipt { data_id, bytes })
    }

    fn write(&self, writer: &mut Writer) -> Result<(), AllocError> {
        self.data_id.write(writer)?;
        self.bytes.write(writer)
    }

    fn duplicate(&self, alloc: Global) -> Result<DataReceipt, AllocError> {
        Ok(DataReceipt {
            data_id: self.data_id,
            bytes: self.bytes.duplicate(alloc)?,
        })
    }
}

impl Spelled for ActionReceipt {
    ghost spelling = { action_receipt_bytes };

    ghost fits = { IsActionReceipt };

    ghost reading = { action_receipt_at };

    ghost law = { action_receipt_law };

    #[tactic(auto, unfolding(crate::specs::Receipts::action_receipt_at))]
    fn read(alloc: Global, reader: &mut Reader<'_>) -> Result<ActionReceipt, RecordFault> {
        let mut ahead = reader.fork();
        let signer = AccountId::read(alloc, &mut ahead)?;
        let signer_key = PublicKey::read(alloc, &mut ahead)?;
        let gas_price = u128::read(alloc, &mut ahead)?;
        let outputs = List::<DataReceiver>::read(alloc, &mut ahead)?;
        let inputs = List::<Hash32>::read(alloc, &mut ahead)?;
        let actions = List::<Action>::read(alloc, &mut ahead)?;
        *reader = ahead;
        Ok(ActionReceipt {
            signer,
            signer_key,
            gas_price,
            outputs,
            inputs,
            actions,
        })
    }

    fn write(&self, writer: &mut Writer) -> Result<(), AllocError> {
        self.signer.write(writer)?;
        self.signer_key.write(writer)?;
        self.gas_price.write(writer)?;
        self.outputs.write(writer)?;
        self.inputs.write(writer)?;
        self.actions.write(writer)
    }

    fn duplicate(&self, alloc: Global) -> Result<ActionReceipt, AllocError> {
        Ok(ActionReceipt {
            signer: self.signer.duplicate(alloc)?,
            signer_key: self.signer_key,
            gas_price: self.gas_price,
            outputs: self.outputs.duplicate(alloc)?,
            inputs: self.inputs.duplicate(alloc)?,
            actions: self.actions.duplicate(alloc)?,
        })
    }
}

impl Spelled for Body {
    ghost spelling = { body_bytes };

    ghost fits = { IsBody };

    ghost reading = { body_at };

    ghost law = { body_law };

    #[tactic(auto, unfolding(crate::specs::Receipts::body_at))]
    fn read(alloc: Global, reader: &mut Reader<'_>) -> Result<Body, RecordFault> {
        let at = reader.at();
        let mut ahead = reader.fork();
        let body = match u8_of(&mut ahead)? {
            0 => Body::Act(ActionReceipt::read(alloc, &mut ahead)?),
            1 => Body::Datum(DataReceipt::read(alloc, &mut ahead)?),
            _ => return Err(RecordFault::BadOrdinal { at }),
        };
        *reader = ahead;
        Ok(body)
    }

    fn write(&self, writer: &mut Writer) -> Result<(), AllocError> {
        match self {
            Body::Act(act) => {
                writer.put_u8(0)?;
                act.write(writer)
            }
            Body::Datum(datum) => {
                writer.put_u8(1)?;
                datum.write(writer)
            }
        }
    }

    fn duplicate(&self, alloc: Global) -> Result<Body, AllocError> {
        match self {
            Body::Act(act) => Ok(Body::Act(act.duplicate(alloc)?)),
            Body::Datum(datum) => Ok(Body::Datum(datum.duplicate(alloc)?)),
        }
    }
}

impl Spelled for Receipt {
    ghost spelling = { receipt_bytes };

    ghost fits = { IsReceipt };

    ghost reading = { receipt_at };

    ghost law = { receipt_law };

    #[tactic(auto, unfolding(crate::specs::Receipts::receipt_at))]
    fn read(alloc: Global, reader: &mut Reader<'_>) -> Result<Receipt, RecordFault> {
        let mut ahead = reader.fork();
        let predecessor = AccountId::read(alloc, &mut ahead)?;
        let receiver = AccountId::read(alloc, &mut ahead)?;
        let receipt_id = Hash32::read(alloc, &mut ahead)?;
        let body = Body::read(alloc, &mut ahead)?;
        *reader = ahead;
        Ok(Receipt {
            predecessor,
            receiver,
            receipt_id,
            body,
        })
    }

    fn write(&self, writer: &mut Writer) -> Result<(), AllocError> {
        self.predecessor.write(writer)?;
        self.receiver.write(writer)?;
        self.receipt_id.write(writer)?;
        self.body.write(writer)
    }

    fn duplicate(&self, alloc: Global) -> Result<Receipt, AllocError> {
        Ok(Receipt {
            predecessor: self.predecessor.duplicate(alloc)?,
            receiver: self.receiver.duplicate(alloc)?,
            receipt_id: self.receipt_id,
            body: self.body.duplicate(alloc)?,
        })
    }
}
