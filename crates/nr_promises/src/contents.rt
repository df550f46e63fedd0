//! What a book of promises holds.

ghost use Rattle.std.specs.Prelude.{◌≡◌, Ok, Err, MatchResult};
ghost use Rattle.nr_promises.specs.Book.{places, promise_at, place_of, next_index};

use crate::fault::PromiseFault;
use nr_bytes::List;
use nr_ids::{AccountId, Hash32, Height, PublicKey};
use nr_records::Receipt;
use std::slice;

/// What the receipts that a call makes have from it.
#[derive(Debug, Drop)]
pub(crate) struct Origin {
    /// The account whose contract runs, which makes them.
    pub(crate) current: AccountId,
    pub(crate) signer: AccountId,
    pub(crate) signer_key: PublicKey,
    pub(crate) gas_price: u128,
    /// The receipt that is executed: ids are drawn from it, at this height.
    pub(crate) receipt_id: Hash32,
    pub(crate) height: Height,
}

/// A promise. It names receipts by their places among those made.
#[derive(Debug, Drop)]
pub(crate) enum Promise {
    /// That of one receipt.
    Single(usize),
    /// Those of several, joined.
    Joined(List<usize>),
}

/// The promises of a call, and the receipts that it made.
#[derive(Debug, Drop)]
pub(crate) struct Book {
    pub(crate) origin: Origin,
    pub(crate) max_promises: u64,
    pub(crate) max_actions: u64,
    /// The number of the next id that is drawn.
    pub(crate) next_ordinal: u64,
    pub(crate) promises: List<Promise>,
    pub(crate) made: List<Receipt>,
}

impl Promise {
    /// The places of the receipts that it holds.
    pub(crate) fn places(&self) -> &[usize]
        ensures { result.now ≡ places self.now }
    {
        match self {
            Promise::Single(at) => slice::from_ref(at),
            Promise::Joined(all) => all.inner(),
        }
    }
}

pub(crate) fn promise_at(book: &Book, index: u64) -> Result<&Promise, PromiseFault>
    ensures { MatchResult result (λ p. promise_at book.now index ≡ Ok p.now) (λ e. promise_at book.now index ≡ Err e) }
{
    match book.promises.inner().get(index as usize) {
        Some(promise) => Ok(promise),
        None => Err(PromiseFault::BadIndex),
    }
}

/// The place of the promise's one receipt.
pub(crate) fn place_of(book: &Book, index: u64) -> Result<usize, PromiseFault>
    ensures { result ≡ place_of book.now index }
{
    match promise_at(book, index)? {
        Promise::Single(at) => Ok(*at),
        Promise::Joined(_) => Err(PromiseFault::Joint),
    }
}

/// The index of the promise that is made next.
pub(crate) fn next_index(book: &Book) -> Result<u64, PromiseFault>
    ensures { result ≡ next_index book.now }
{
    let count = book.promises.inner().len() as u64;
    if count < book.max_promises {
        Ok(count)
    } else {
        Err(PromiseFault::TooMany)
    }
}
