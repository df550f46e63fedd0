//! The host of one call.

ghost use Rattle.std.specs.Prelude.{◌≡◌, IfOk, Ok, IsSome, true};
ghost use Rattle.std.specs.FinMap.{get};

use crate::callee::Callee;
use crate::logs::Logs;
use nr_bytes::Blob;
use nr_config::Config;
use nr_fees::GasCounter;
use nr_guest::Registers;
use nr_promises::PromiseBook;
use nr_state::{CallContext, CallEnd, Returned, ShardState};
use nr_triedef::Store;
use nr_wasmmem::Memory;
use std::alloc::{AllocError, Global};

/// What the bindings of one call work on: the state of the shard, which it borrows, and the call's gas,
/// registers, promises, logs and returned value.
///
/// After want of memory in a call no more can be said of the state.
#[derive(Drop)]
pub struct HostContext<'a, S: Store> {
    pub(crate) alloc: Global,
    pub(crate) callee: Callee<'a, S>,
    pub(crate) counter: GasCounter,
    pub(crate) registers: Registers,
    /// The guest's memory, while a binding runs.
    pub(crate) guest: Memory,
    pub(crate) book: PromiseBook,
    pub(crate) logs: Logs,
    pub(crate) returned: Returned,
}

impl<'a, S: Store> HostContext<'a, S> {
    ghost use Rattle.nr_hostctx.specs.State.{state_of, fresh, end_of, borrowed, state_in, rest_of, rest_in, is_whole};

    /// The host of a call that has done nothing, with the call's gas as its limit.
    ///
    /// # Errors
    ///
    /// Where there is no memory for it.
    pub fn new(
        alloc: Global,
        state: &'a mut ShardState<S>,
        context: &'a CallContext,
        config: &'a Config,
    ) -> Result<HostContext<'a, S>, AllocError>
        requires whole { state.old.whole ≡ true }
        requires stands { IsSome (get state.old.world.accounts context.now.current) }
        requires config { state.old.config ≡ config.now }
        ensures state { IfOk result (λ host. state_of host ≡ fresh state.old.world context.now config.now) }
        ensures borrows { IfOk result (λ host. borrowed host ≡ state.entry.ghost_name) }
        ensures rest { IfOk result (λ host. rest_in host ≡ rest_of state.old) }
        ensures whole { IfOk result (λ host. is_whole host ≡ true) }
    {
        let book = PromiseBook::new(alloc, &context.current, context, config)?;
        Ok(HostContext {
            alloc,
            callee: Callee::new(state, context, config),
            counter: GasCounter::new(context.gas),
            registers: Registers::new(alloc, config),
            guest: Memory::empty(alloc),
            book,
            logs: Logs::new(alloc),
            returned: Returned::Value(Blob::of(Vec::new(alloc))),
        })
    }

    /// The gas that is burnt.
    pub fn burnt(&self) -> u64
        ensures { result ≡ (state_of self.now).gas.burnt }
    {
        self.counter.burnt
    }

    /// How the call ended, where no binding stopped it, and the state that was lent.
    pub fn finish(self) -> (CallEnd, &'a mut ShardState<S>)
        ensures end { result.0 ≡ end_of (state_of self.entry) }
        ensures state { result.1.now ≡ state_in self.entry }
        ensures borrows { result.1.ghost_name ≡ borrowed self.entry }
    {
        let (made, next_ordinal) = self.book.finish();
        let end = CallEnd {
            burnt: self.counter.burnt,
            promised: self.counter.promised,
            returned: self.returned,
            made,
            next_ordinal,
            logs: self.logs.into_list(),
        };
        let callee = self.callee;
        let state = callee.state;
        (end, state)
    }
}
