//! The bindings that make promises and read their results.

ghost use Rattle.std.specs.Prelude.{◌≡◌, ◌<◌, MatchResult};
ghost use Rattle.nr_hostctx.specs.Acts as act;
ghost use Rattle.nr_hostctx.specs.Acts.{Does};
ghost use Rattle.nr_hostctx.specs.Promises as row;
ghost use Rattle.nr_hostctx.specs.State.{state_of, Keeps};

use crate::arguments::copy;
use crate::context::HostContext;
use crate::fees::{both_fees, sending};
use crate::promise_arguments::numbers_in;
use crate::stops::{BAD_ACCOUNT_ID, BAD_RESULT, OUT_OF_BOUNDS, TOO_MANY_PROMISES, promise_stop};
use nr_bytes::Blob;
use nr_config::entries::MAX_PROMISES;
use nr_fees::{Fee, Payment};
use nr_ids::{AccountId, Hash32, IdFault};
use nr_state::Returned;
use nr_triedef::Store;
use nr_wasmmem::HostStop;

/// The size of so many numbers of 8 bytes, which fits in 64 bits.
fn indices_size(count: u64) -> Result<u64, HostStop>
    ensures { row.Sized result count }
{
    match count.checked_mul(8) {
        Some(size) => Ok(size),
        None => Err(OUT_OF_BOUNDS),
    }
}

impl<'a, S: Store> HostContext<'a, S> {
    /// How many receipts a promise holds.
    pub(crate) fn inputs_at(&self, index: u64) -> Result<u64, HostStop>
        ensures { Does result self.now self.now (row.inputs_at index) }
    {
        match self.book.inputs_of(index) {
            Ok(count) => Ok(count as u64),
            Err(fault) => Err(promise_stop(fault)),
        }
    }

    pub(crate) fn account_id(&self, bytes: &[u8]) -> Result<AccountId, HostStop>
        ensures { Does result self.now self.now (row.account_id bytes.now) }
    {
        match AccountId::parse(self.alloc, bytes) {
            Ok(id) => Ok(id),
            Err(IdFault::Memory) => Err(HostStop::Memory),
            Err(_) => Err(BAD_ACCOUNT_ID),
        }
    }

    /// A fault where no more promise may be made.
    pub(crate) fn place_for_one(&self) -> Result<(), HostStop>
        ensures { Does result self.now self.now row.place_for_one }
    {
        if self.callee.config.entry(MAX_PROMISES) <= self.book.promises() {
            Err(TOO_MANY_PROMISES)
        } else {
            Ok(())
        }
    }

    /// Burns what sending a receipt costs, and promises what executing it costs.
    #[tactic(auto, unfolding(crate::specs::Promises::pay_receipt))]
    fn pay_receipt(&mut self, receiver: &AccountId) -> Result<(), HostStop>
        ensures does { Does result self.old self.new (row.pay_receipt receiver.now) }
        ensures keeps { Keeps self.old self.new }
    {
        let local = self.is_local(receiver);
        let sent = self.fee(sending(local), Fee::ActionReceipt);
        self.spend(u128::from(sent))?;
        let executed = self.fee(Payment::Execute, Fee::ActionReceipt);
        self.promise(u128::from(executed))?;
        Ok(())
    }

    /// Burns what so many data for a new receipt cost.
    #[tactic(auto, unfolding(crate::specs::Promises::pay_inputs))]
    fn pay_inputs(&mut self, count: u64, receiver: &AccountId) -> Result<(), HostStop>
        ensures does { Does result self.old self.new (row.pay_inputs count receiver.now) }
        ensures keeps { Keeps self.old self.new }
    {
        let local = self.is_local(receiver);
        let each = both_fees(self.callee.config, local, Fee::DataBase);
        self.spend_for(0, each, count)
    }

    #[tactic(auto, unfolding(crate::specs::Promises::make))]
    fn make(&mut self, receiver: AccountId) -> Result<u64, HostStop>
        ensures does { Does result self.old self.new (row.make receiver) }
        ensures keeps { Keeps self.old self.new }
    {
        match self.book.create(receiver) {
            Ok(index) => Ok(index),
            Err(fault) => Err(promise_stop(fault)),
        }
    }

    #[tactic(auto, unfolding(crate::specs::Promises::make_after))]
    fn make_after(&mut self, index: u64, receiver: AccountId) -> Result<u64, HostStop>
        ensures does { Does result self.old self.new (row.make_after index receiver) }
        ensures keeps { Keeps self.old self.new }
    {
        match self.book.then(index, receiver) {
            Ok(index) => Ok(index),
            Err(fault) => Err(promise_stop(fault)),
        }
    }

    /// Pays for a receipt, and makes it with a promise for it.
    #[tactic(auto, unfolding(crate::specs::Promises::create_promise))]
    pub(crate) fn create_promise(&mut self, receiver: AccountId) -> Result<u64, HostStop>
        ensures does { Does result self.old self.new (row.create_promise receiver) }
        ensures keeps { Keeps self.old self.new }
    {
        self.pay_receipt(&receiver)?;
        let index = self.make(receiver)?;
        Ok(index)
    }

    /// The same of a receipt that waits for those that a promise holds.
    #[tactic(auto, unfolding(crate::specs::Promises::chain_promise))]
    pub(crate) fn chain_promise(
        &mut self,
        index: u64,
        inputs: u64,
        receiver: AccountId,
    ) -> Result<u64, HostStop>
        ensures does { Does result self.old self.new (row.chain_promise index inputs receiver) }
        ensures keeps { Keeps self.old self.new }
    {
        self.pay_receipt(&receiver)?;
        self.pay_inputs(inputs, &receiver)?;
        let made = self.make_after(index, receiver)?;
        Ok(made)
    }

    #[tactic(auto, unfolding(crate::specs::Promises::make_joint))]
    fn make_joint(&mut self, indices: &[u64]) -> Result<u64, HostStop>
        ensures does { Does result self.old self.new (row.make_joint indices.now) }
        ensures keeps { Keeps self.old self.new }
    {
        match self.book.join(indices) {
            Ok(index) => Ok(index),
            Err(fault) => Err(promise_stop(fault)),
        }
    }

    fn result_at(&self, index: u64) -> Result<&'a Option<Blob>, HostStop>
        ensures { MatchResult result (λ found. row.result_at index (state_of self.now)
            ≡ act.Goes (state_of self.now) found.now) (λ why. row.result_at index (state_of self.now)
            ≡ act.Stops (state_of self.now) why) }
    {
        match self.callee.context.inputs.inner().get(index as usize) {
            Some(found) => Ok(found),
            None => Err(BAD_RESULT),
        }
    }

    /// 1 with the bytes in the register, or 2.
    fn result_in(&mut self, reg: u64, bytes: &Option<Blob>) -> Result<u64, HostStop>
        ensures does { Does result self.old self.new (row.result_in reg bytes.now) }
        ensures keeps { Keeps self.old self.new }
    {
        match bytes {
            Some(bytes) => {
                self.to_register(reg, bytes.inner())?;
                Ok(1)
            }
            None => Ok(2),
        }
    }

    fn receipt_at(&self, index: u64) -> Result<Hash32, HostStop>
        ensures { Does result self.now self.now (row.receipt_at index) }
    {
        match self.book.receipt_of(index) {
            Ok(id) => Ok(id),
            Err(fault) => Err(promise_stop(fault)),
        }
    }

    #[tactic(auto, unfolding(crate::specs::Promises::set_promise))]
    fn set_promise(&mut self, id: Hash32)
        ensures does { act.Leads self.old self.new (row.set_promise id (state_of self.old))
            (act.Goes (state_of self.new) tt) }
        ensures keeps { Keeps self.old self.new }
    {
        self.returned = Returned::Promise(id);
    }

    #[tactic(auto, unfolding(crate::specs::Promises::promise_batch_create))]
    pub(crate) fn promise_batch_create(&mut self, alen: u64, aptr: u64) -> Result<u64, HostStop>
        ensures does { Does result self.old self.new (row.promise_batch_create alen aptr) }
        ensures keeps { Keeps self.old self.new }
    {
        self.begin()?;
        let bytes = self.bytes_of(alen, aptr)?;
        let receiver = self.account_id(bytes.inner())?;
        self.place_for_one()?;
        let index = self.create_promise(receiver)?;
        Ok(index)
    }

    #[tactic(auto, unfolding(crate::specs::Promises::promise_batch_then))]
    pub(crate) fn promise_batch_then(
        &mut self,
        index: u64,
        alen: u64,
        aptr: u64,
    ) -> Result<u64, HostStop>
        ensures does { Does result self.old self.new (row.promise_batch_then index alen aptr) }
        ensures keeps { Keeps self.old self.new }
    {
        self.begin()?;
        let bytes = self.bytes_of(alen, aptr)?;
        let inputs = self.inputs_at(index)?;
        let receiver = self.account_id(bytes.inner())?;
        self.place_for_one()?;
        let made = self.chain_promise(index, inputs, receiver)?;
        Ok(made)
    }

    #[tactic(auto, unfolding(crate::specs::Promises::promise_and))]
    pub(crate) fn promise_and(&mut self, ptr: u64, count: u64) -> Result<u64, HostStop>
        ensures does { Does result self.old self.new (row.promise_and ptr count) }
        ensures keeps { Keeps self.old self.new }
    {
        self.begin()?;
        let size = indices_size(count)?;
        let bytes = self.guest_bytes(size, ptr)?;
        let indices = numbers_in(self.alloc, count, bytes.inner())?;
        let index = self.make_joint(indices.inner())?;
        Ok(index)
    }

    #[tactic(auto, unfolding(crate::specs::Promises::promise_results_count))]
    pub(crate) fn promise_results_count(&mut self) -> Result<u64, HostStop>
        ensures does { Does result self.old self.new row.promise_results_count }
        ensures keeps { Keeps self.old self.new }
    {
        self.begin()?;
        Ok(self.callee.context.inputs.inner().len() as u64)
    }

    #[tactic(auto, unfolding(crate::specs::Promises::promise_result))]
    pub(crate) fn promise_result(&mut self, index: u64, reg: u64) -> Result<u64, HostStop>
        ensures does { Does result self.old self.new (row.promise_result index reg) }
        ensures keeps { Keeps self.old self.new }
    {
        self.begin()?;
        let result = self.result_at(index)?;
        let found = self.result_in(reg, result)?;
        Ok(found)
    }

    #[tactic(auto, unfolding(crate::specs::Promises::promise_return))]
    pub(crate) fn promise_return(&mut self, index: u64) -> Result<(), HostStop>
        ensures does { Does result self.old self.new (row.promise_return index) }
        ensures keeps { Keeps self.old self.new }
    {
        self.begin()?;
        let id = self.receipt_at(index)?;
        self.set_promise(id);
        Ok(())
    }
}
