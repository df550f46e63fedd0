//! New receipts, and promises for them.

ghost use Rattle.std.specs.Prelude.{◌≡◌, ◌++◌, ◌∷◌, [], ◌+◌, ◌<◌, length, IfOk, OnOk, OnErr, IfSome};
ghost use Rattle.std.specs.List.{AllByRecursion};
ghost use Rattle.nr_bytes.specs.Answers.{GivesAs};
ghost use Rattle.nr_promises.specs.Book.{new_receipt, drawn, changed, body_with_output, with_output, made_after};
ghost use Rattle.nr_promises.specs.Book.{with_receipt, create, then, IsBook};
ghost use Rattle.nr_promises.specs.Making.{body_without_output, without_output, waited};
ghost use Rattle.nr_promises.specs.declared.fault.PromiseFault.TheVariants.{Memory};

use crate::contents::{Book, Origin, Promise, next_index, promise_at};
use crate::fault::PromiseFault;
use nr_bytes::List;
use nr_ids::{AccountId, Hash32, derive};
use nr_records::{ActionReceipt, Body, DataReceiver, Receipt};
use std::alloc::{AllocError, Global};

fn new_receipt(
    alloc: Global,
    origin: &Origin,
    id: Hash32,
    receiver: AccountId,
    inputs: List<Hash32>,
) -> Result<Receipt, AllocError>
    ensures { IfOk result (λ receipt. receipt ≡ new_receipt origin.now id receiver inputs) }
{
    Ok(Receipt {
        predecessor: origin.current.duplicate(alloc)?,
        receiver,
        receipt_id: id,
        body: Body::Act(ActionReceipt {
            signer: origin.signer.duplicate(alloc)?,
            signer_key: origin.signer_key,
            gas_price: origin.gas_price,
            outputs: List::of(Vec::new(alloc)),
            inputs,
            actions: List::of(Vec::new(alloc)),
        }),
    })
}

fn append_output(body: &mut Body, output: DataReceiver) -> Result<(), AllocError>
    ensures added { OnOk result (body.new ≡ body_with_output output body.old) }
    ensures refused { OnErr result (body.new ≡ body.old) }
{
    match body {
        Body::Act(act) => {
            act.outputs.vec_mut().push(output)?;
            Ok(())
        }
        Body::Datum(_) => Ok(()),
    }
}

fn add_output(made: &mut List<Receipt>, at: usize, output: DataReceiver) -> Result<(), AllocError>
    requires { at < length made.old }
    ensures added { OnOk result (made.new ≡ changed (with_output output) made.old at) }
    ensures refused { OnErr result (made.new ≡ made.old) }
{
    append_output(&mut made.vec_mut()[at].body, output)?;
    Ok(())
}

fn pop_output(body: &mut Body)
    ensures { body.new ≡ body_without_output body.old }
{
    if let Body::Act(act) = body {
        act.outputs.vec_mut().pop();
    }
}

fn drop_output(made: &mut List<Receipt>, at: usize)
    requires { at < length made.old }
    ensures { made.new ≡ changed without_output made.old at }
{
    pop_output(&mut made.vec_mut()[at].body);
}

/// Draws an id for the receipt at a place, which gets an output under it. Gives the number of the
/// next id.
fn connect(
    alloc: Global,
    origin: &Origin,
    receiver: &AccountId,
    at: usize,
    inputs: &mut List<Hash32>,
    made: &mut List<Receipt>,
    ordinal: u64,
) -> Result<u64, AllocError>
    requires { at < length made.old }
    ensures made { OnOk result (made.new ≡ changed
        (with_output (record { data_id = drawn origin.now ordinal; receiver = receiver.now })) made.old at) }
    ensures inputs { OnOk result (inputs.new ≡ inputs.old ++ drawn origin.now ordinal ∷ []) }
    ensures next { IfOk result (λ next. next ≡ ordinal + 1) }
    ensures refused { OnErr result (made.new ≡ made.old) }
{
    let data_id = derive(&origin.receipt_id, origin.height, ordinal);
    let next = ordinal.checked_add(1).ok_or(AllocError)?;
    let receiver = receiver.duplicate(alloc)?;
    inputs.vec_mut().push(data_id)?;
    add_output(made, at, DataReceiver { data_id, receiver })?;
    Ok(next)
}

/// Makes the receipt that waits for these inputs. Gives the number of the next id.
fn finish_receipt(
    alloc: Global,
    origin: &Origin,
    receiver: AccountId,
    inputs: List<Hash32>,
    made: &mut List<Receipt>,
    ordinal: u64,
) -> Result<u64, AllocError>
    ensures made { IfOk result (λ next. (made.new, next) ≡ made_after origin.now receiver [] inputs made.old ordinal) }
    ensures refused { OnErr result (made.new ≡ made.old) }
{
    let id = derive(&origin.receipt_id, origin.height, ordinal);
    let next = ordinal.checked_add(1).ok_or(AllocError)?;
    let receipt = new_receipt(alloc, origin, id, receiver, inputs)?;
    made.vec_mut().push(receipt)?;
    Ok(next)
}

/// Makes a receipt that waits for these inputs, and for the receipts at these places. Gives the
/// number of the next id. Where memory runs out, no receipt has changed.
fn make(
    alloc: Global,
    origin: &Origin,
    receiver: AccountId,
    waited: &[usize],
    mut inputs: List<Hash32>,
    made: &mut List<Receipt>,
    ordinal: u64,
) -> Result<u64, AllocError>
    requires { AllByRecursion (λ at. at < length made.old) waited.now }
    ensures made { IfOk result (λ next. (made.new, next)
        ≡ made_after origin.now receiver waited.now inputs made.old ordinal) }
    ensures refused { OnErr result (made.new ≡ made.old) }
{
    let Some((at, rest)) = waited.split_first() else {
        return finish_receipt(alloc, origin, receiver, inputs, made, ordinal);
    };
    let next = connect(alloc, origin, &receiver, *at, &mut inputs, made, ordinal)?;
    let result = make(alloc, origin, receiver, rest, inputs, made, next);
    if result.is_err() {
        drop_output(made, *at);
    }
    result
}

/// The places of the receipts that a new one waits for.
fn waited(promises: &[Promise], after: Option<usize>) -> &[usize]
    requires { IfSome after (λ index. index < length promises.now) }
    ensures { result.now ≡ waited promises.now after }
{
    match after {
        Some(index) => promises[index].places(),
        None => &[],
    }
}

/// Makes a receipt and a promise for it. It waits for the receipts of the promise `after`.
fn add(
    alloc: Global,
    book: &mut Book,
    receiver: AccountId,
    after: Option<usize>,
) -> Result<(), AllocError>
    requires index { IfSome after (λ index. index < length book.old.promises) }
    requires book { IsBook book.old }
    ensures added { OnOk result (book.new ≡ with_receipt book.old receiver (waited book.old.promises after)) }
    ensures refused { OnErr result (book.new ≡ book.old) }
{
    let at = book.made.inner().len();
    let inputs = List::of(Vec::new(alloc));
    let promises = book.promises.vec_mut();
    promises.reserve(1)?;
    let waited = waited(promises, after);
    let made = &mut book.made;
    let next = make(
        alloc,
        &book.origin,
        receiver,
        waited,
        inputs,
        made,
        book.next_ordinal,
    )?;
    promises.push(Promise::Single(at))?;
    book.next_ordinal = next;
    Ok(())
}

/// A receipt for `receiver`, and a promise for it.
pub(crate) fn create(
    alloc: Global,
    book: &mut Book,
    receiver: AccountId,
) -> Result<u64, PromiseFault>
    requires { IsBook book.old }
    ensures gives { GivesAs Memory (λ index. (book.new, index)) result (create book.old receiver) }
    ensures refused { OnErr result (book.new ≡ book.old) }
{
    let index = next_index(book)?;
    add(alloc, book, receiver, None)?;
    Ok(index)
}

/// A receipt for `receiver` that waits for those of the promise `after`, and a promise for it.
pub(crate) fn then(
    alloc: Global,
    book: &mut Book,
    after: u64,
    receiver: AccountId,
) -> Result<u64, PromiseFault>
    requires { IsBook book.old }
    ensures gives { GivesAs Memory (λ index. (book.new, index)) result (then book.old after receiver) }
    ensures refused { OnErr result (book.new ≡ book.old) }
{
    promise_at(book, after)?;
    let index = next_index(book)?;
    add(alloc, book, receiver, Some(after as usize))?;
    Ok(index)
}
