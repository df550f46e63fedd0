//! Promises that are joined.

ghost use Rattle.std.specs.Prelude.{◌≡◌, ◌++◌, ◌∷◌, [], true, Ok, Err, Result, nat_lt, length, OnOk, OnErr};
ghost use Rattle.std.specs.List.{list_all};
ghost use Rattle.nr_bytes.specs.Answers.{GivesAs};
ghost use Rattle.nr_promises.specs.Book.{join};
ghost use Rattle.nr_promises.specs.Joining.{gathered};
ghost use Rattle.nr_promises.specs.declared.fault.PromiseFault.TheVariants.{Memory};

use crate::contents::{Book, Promise, next_index};
use crate::fault::PromiseFault;
use nr_bytes::List;
use std::alloc::{AllocError, Global};

/// The most receipts that a joint promise holds.
const MOST_INPUTS: usize = 128;

fn all_stand(promises: &[Promise], indices: &[u64]) -> bool
    ensures { result ≡ list_all (λ index. nat_lt index (length promises.now)) indices.now }
{
    let count = promises.len() as u64;
    indices.iter().all(|index| *index < count)
}

/// The places of the receipts of all these promises.
fn gather(alloc: Global, promises: &[Promise], indices: &[u64]) -> Result<List<usize>, PromiseFault>
    requires { list_all (λ index. nat_lt index (length promises.now)) indices.now ≡ true }
    ensures { GivesAs Memory (λ places. places) result (gathered promises.now indices.now) }
{
    let mut places = Vec::new(alloc);
    for index in indices {
        places.extend_from_slice(promises[*index as usize].places())?;
        if places.len() > MOST_INPUTS {
            return Err(PromiseFault::TooManyInputs);
        }
    }
    Ok(List::of(places))
}

fn append(promises: &mut List<Promise>, promise: Promise) -> Result<(), AllocError>
    ensures appended { OnOk result (promises.new ≡ promises.old ++ promise ∷ []) }
    ensures refused { OnErr result (promises.new ≡ promises.old) }
{
    promises.vec_mut().push(promise)?;
    Ok(())
}

/// A promise that holds the receipts of all these promises.
pub(crate) fn join(alloc: Global, book: &mut Book, indices: &[u64]) -> Result<u64, PromiseFault>
    ensures gives { GivesAs Memory (λ index. (book.new, index)) result (join book.old indices.now) }
    ensures refused { OnErr result (book.new ≡ book.old) }
{
    let promises = book.promises.inner();
    if !all_stand(promises, indices) {
        return Err(PromiseFault::BadIndex);
    }
    let places = gather(alloc, promises, indices)?;
    let index = next_index(book)?;
    append(&mut book.promises, Promise::Joined(places))?;
    Ok(index)
}
