//! The promises of a call.

ghost use Rattle.std.specs.Prelude.{◌≡◌, length, Ok, Err, IfOk, OnErr, MatchResult};
ghost use Rattle.nr_bytes.specs.Answers.{GivesAs};
ghost use Rattle.nr_promises.specs.Book.{new_book, create, then, join, act, receipt_of, inputs_of, receiver_of};
ghost use Rattle.nr_promises.specs.Book.{actions_of, IsBook};
ghost use Rattle.nr_promises.specs.declared.fault.PromiseFault.TheVariants.{Memory};

use crate::acting::{act, count_at};
use crate::contents::{Book, Origin, place_of, promise_at};
use crate::fault::PromiseFault;
use crate::joining::join;
use crate::making::{create, then};
use nr_bytes::List;
use nr_config::Config;
use nr_config::entries::{MAX_ACTIONS, MAX_PROMISES};
use nr_ids::{AccountId, Hash32};
use nr_records::{Action, Receipt};
use nr_state::CallContext;
use std::alloc::{AllocError, Global};
use std::marker::Model;

/// The promises that a call of a contract makes, and the receipts that it makes by them.
///
/// Contracts see the promises in order, each with the receipts that it holds, and the receipts as
/// they were made. An index of a promise counts from 0.
///
/// A call that is refused leaves the book as it was, also where memory runs out. A call that would
/// draw more than 2^64 ids counts as want of memory.
#[derive(Drop)]
pub struct PromiseBook {
    alloc: Global,
    book: Book,
}

impl Model for PromiseBook {
    ghost use Rattle.nr_promises.specs.declared.contents.Book.{Book};
    ghost use Rattle.nr_promises.specs.Book.{IsBook};

    ghost Value = { Book };

    ghost view = { λ a. a.book };

    ghost invariant = { λ a. IsBook a.book };
}

fn new_book(
    alloc: Global,
    current: &AccountId,
    context: &CallContext,
    config: &Config,
) -> Result<Book, AllocError>
    ensures { IfOk result (λ book. book ≡ new_book current.now context.now config.now) }
{
    let origin = Origin {
        current: current.duplicate(alloc)?,
        signer: context.signer.duplicate(alloc)?,
        signer_key: context.signer_key,
        gas_price: context.gas_price,
        receipt_id: context.receipt_id,
        height: context.height,
    };
    Ok(Book {
        origin,
        max_promises: config.entry(MAX_PROMISES),
        max_actions: config.entry(MAX_ACTIONS),
        next_ordinal: context.next_ordinal,
        promises: List::of(Vec::new(alloc)),
        made: List::of(Vec::new(alloc)),
    })
}

impl PromiseBook {
    /// The book of a call of the account `current`, without promises and receipts. The receipts will
    /// have the call's signer, key and gas price, and their ids are drawn from the receipt that is
    /// executed, from the context's next ordinal on.
    ///
    /// # Errors
    ///
    /// Where there is no memory for it.
    pub fn new(
        alloc: Global,
        current: &AccountId,
        context: &CallContext,
        config: &Config,
    ) -> Result<PromiseBook, AllocError>
        ensures { IfOk result (λ book. book ≡ new_book current.now context.now config.now) }
    {
        let book = new_book(alloc, current, context, config)?;
        Ok(PromiseBook { alloc, book })
    }

    /// Makes a receipt for `receiver`, and a promise for it, whose index it gives.
    ///
    /// # Errors
    ///
    /// `TooMany`, or `Memory`. The book is then as it was.
    pub fn create(&mut self, receiver: AccountId) -> Result<u64, PromiseFault>
        ensures gives { GivesAs Memory (λ index. (self.new, index)) result (create self.old receiver) }
        ensures refused { OnErr result (self.new ≡ self.old) }
    {
        let index = create(self.alloc, &mut self.book, receiver)?;
        Ok(index)
    }

    /// Makes a receipt for `receiver` that waits for the results of the receipts which the promise
    /// at `index` holds, and a promise for it, whose index it gives. A data id is drawn for each of
    /// those receipts in order, and then the new receipt's id.
    ///
    /// # Errors
    ///
    /// `BadIndex`, else `TooMany`, or `Memory`. The book is then as it was.
    pub fn then(&mut self, index: u64, receiver: AccountId) -> Result<u64, PromiseFault>
        ensures gives { GivesAs Memory (λ index. (self.new, index)) result (then self.old index receiver) }
        ensures refused { OnErr result (self.new ≡ self.old) }
    {
        let index = then(self.alloc, &mut self.book, index, receiver)?;
        Ok(index)
    }

    /// Makes a promise that holds the receipts of these promises in order, those of joint ones in
    /// their place, and gives its index. It may hold none.
    ///
    /// # Errors
    ///
    /// `BadIndex` where one of the indices is no promise's, else `TooManyInputs` where it would hold
    /// more than 128 receipts, else `TooMany`, or `Memory`. The book is then as it was.
    pub fn join(&mut self, indices: &[u64]) -> Result<u64, PromiseFault>
        ensures gives { GivesAs Memory (λ index. (self.new, index)) result (join self.old indices.now) }
        ensures refused { OnErr result (self.new ≡ self.old) }
    {
        let index = join(self.alloc, &mut self.book, indices)?;
        Ok(index)
    }

    /// Appends an action to the receipt of the promise at `index`.
    ///
    /// # Errors
    ///
    /// `BadIndex`, else `Joint`, else `TooManyActions`, or `Memory`. The book is then as it was.
    pub fn act(&mut self, index: u64, action: Action) -> Result<(), PromiseFault>
        ensures gives { GivesAs Memory (λ done. self.new) result (act self.old index action) }
        ensures refused { OnErr result (self.new ≡ self.old) }
    {
        act(&mut self.book, index, action)?;
        Ok(())
    }

    /// The id of the receipt of the promise at `index`.
    ///
    /// # Errors
    ///
    /// `BadIndex`, else `Joint`.
    pub fn receipt_of(&self, index: u64) -> Result<Hash32, PromiseFault>
        ensures { result ≡ receipt_of self.now index }
    {
        let at = place_of(&self.book, index)?;
        Ok(self.book.made.inner()[at].receipt_id)
    }

    /// How many receipts the promise at `index` holds.
    ///
    /// # Errors
    ///
    /// `BadIndex`.
    pub fn inputs_of(&self, index: u64) -> Result<usize, PromiseFault>
        ensures { result ≡ inputs_of self.now index }
    {
        let promise = promise_at(&self.book, index)?;
        Ok(promise.places().len())
    }

    /// The receiver of the receipt of the promise at `index`.
    ///
    /// # Errors
    ///
    /// `BadIndex`, else `Joint`.
    pub fn receiver_of(&self, index: u64) -> Result<&AccountId, PromiseFault>
        ensures { MatchResult result (λ id. receiver_of self.now index ≡ Ok id.now)
            (λ fault. receiver_of self.now index ≡ Err fault) }
    {
        let at = place_of(&self.book, index)?;
        Ok(&self.book.made.inner()[at].receiver)
    }

    /// How many actions the receipt of the promise at `index` has.
    ///
    /// # Errors
    ///
    /// `BadIndex`, else `Joint`.
    pub fn actions_of(&self, index: u64) -> Result<usize, PromiseFault>
        ensures { result ≡ actions_of self.now index }
    {
        let at = place_of(&self.book, index)?;
        Ok(count_at(self.book.made.inner(), at))
    }

    /// How many promises there are.
    pub fn promises(&self) -> u64
        ensures count { result ≡ length self.now.promises }
        ensures valid { IsBook self.now }
    {
        self.book.promises.inner().len() as u64
    }

    /// The receipts made, in order, and the number of the next id.
    pub fn finish(self) -> (List<Receipt>, u64)
        ensures made { result.0 ≡ self.made }
        ensures next { result.1 ≡ self.next_ordinal }
        ensures valid { IsBook self }
    {
        let book = self.book;
        (book.made, book.next_ordinal)
    }
}
