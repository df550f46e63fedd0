//! The bindings of logs, of the returned value and of panics.

ghost use Rattle.std.specs.Prelude.{◌≡◌, ◌*◌, ◌++◌, ◌∷◌, ◌<◌, ◌^◌, [], length, OnOk};
ghost use Rattle.nr_hostctx.specs.Acts as act;
ghost use Rattle.nr_hostctx.specs.Acts.{Does};
ghost use Rattle.nr_hostctx.specs.Logs as row;
ghost use Rattle.nr_hostctx.specs.State.{state_of, Keeps};

use crate::context::HostContext;
use crate::fees::outputs_cost;
use crate::stops::{GUEST_PANIC, RETURN_TOO_LONG, TOO_MANY_LOGS};
use nr_bytes::{Blob, List};
use nr_config::entries::{MAX_LOG_BYTES, MAX_LOGS, MAX_RETURN_BYTES};
use nr_state::Returned;
use nr_triedef::Store;
use nr_wasmmem::HostStop;
use std::alloc::{AllocError, Global};
use std::marker::Model;

/// The texts that were logged.
#[derive(Drop)]
pub(crate) struct Logs {
    texts: Vec<Blob>,
    // How many bytes they have together.
    total: u128,
}

impl Model for Logs {
    ghost use Rattle.std.specs.Prelude.{◌≡◌, ◌≤◌, ◌*◌, ◌^◌, List, ℕ, length, sum_by};

    ghost Value = { List (List ℕ) };

    ghost view = { λ l. l.texts.items };

    ghost invariant = { λ l. (l.total ≡ sum_by length l.texts.items) × (l.total ≤ length l.texts.items * 2 ^ 63) };
}

impl Logs {
    pub(crate) fn new(alloc: Global) -> Logs
        ensures { result ≡ [] }
    {
        Logs {
            texts: Vec::new(alloc),
            total: 0,
        }
    }

    fn count(&self) -> u64
        ensures { result ≡ length self.now }
    {
        self.texts.len() as u64
    }

    fn bytes(&self) -> u128
        ensures value { result ≡ row.log_bytes self.now }
        ensures small { result < 2 ^ 127 }
    {
        let _count = self.texts.len();
        self.total
    }

    fn push(&mut self, text: Blob) -> Result<(), AllocError>
        ensures { OnOk result (self.new ≡ self.old ++ text ∷ []) }
    {
        let size = text.inner().len() as u128;
        self.texts.push(text)?;
        self.total += size;
        Ok(())
    }

    pub(crate) fn into_list(self) -> List<Blob>
        ensures { result ≡ self }
    {
        List::of(self.texts)
    }
}

impl<'a, S: Store> HostContext<'a, S> {
    #[tactic(auto, unfolding(crate::specs::Logs::add_log))]
    fn add_log(&mut self, text: Blob) -> Result<(), HostStop>
        ensures does { Does result self.old self.new (row.add_log text) }
        ensures keeps { Keeps self.old self.new }
    {
        let bytes = self.logs.bytes() + text.inner().len() as u128;
        if self.callee.config.entry(MAX_LOGS) <= self.logs.count()
            || u128::from(self.callee.config.entry(MAX_LOG_BYTES)) < bytes
        {
            return Err(TOO_MANY_LOGS);
        }
        match self.logs.push(text) {
            Ok(()) => Ok(()),
            Err(_) => Err(HostStop::Memory),
        }
    }

    fn short_return(&self, value: &[u8]) -> Result<(), HostStop>
        ensures { Does result self.now self.now (row.short_return value.now) }
    {
        if self.callee.config.entry(MAX_RETURN_BYTES) < value.len() as u64 {
            Err(RETURN_TOO_LONG)
        } else {
            Ok(())
        }
    }

    fn pay_outputs(&mut self, count: u64) -> Result<(), HostStop>
        ensures does { Does result self.old self.new (row.pay_outputs count) }
        ensures keeps { Keeps self.old self.new }
    {
        let context = self.callee.context;
        let outputs = context.outputs.inner();
        match outputs_cost(self.callee.config, &context.current, outputs, count) {
            Some(cost) => self.spend(cost),
            None => Err(self.exceed()),
        }
    }

    #[tactic(auto, unfolding(crate::specs::Logs::set_value))]
    fn set_value(&mut self, value: Blob)
        ensures does { act.Leads self.old self.new (row.set_value value (state_of self.old))
            (act.Goes (state_of self.new) tt) }
        ensures keeps { Keeps self.old self.new }
    {
        self.returned = Returned::Value(value);
    }

    #[tactic(auto, unfolding(crate::specs::Logs::log_utf8))]
    pub(crate) fn log_utf8(&mut self, len: u64, ptr: u64) -> Result<(), HostStop>
        ensures does { Does result self.old self.new (row.log_utf8 len ptr) }
        ensures keeps { Keeps self.old self.new }
    {
        self.begin()?;
        let text = self.text_of(len, ptr)?;
        self.utf8(text.inner())?;
        self.add_log(text)?;
        Ok(())
    }

    #[tactic(auto, unfolding(crate::specs::Logs::panic_utf8))]
    pub(crate) fn panic_utf8(&mut self, len: u64, ptr: u64) -> Result<(), HostStop>
        ensures does { Does result self.old self.new (row.panic_utf8 len ptr) }
        ensures keeps { Keeps self.old self.new }
    {
        self.begin()?;
        let text = self.text_of(len, ptr)?;
        self.utf8(text.inner())?;
        Err(GUEST_PANIC)
    }

    #[tactic(auto, unfolding(crate::specs::Logs::abort))]
    pub(crate) fn abort(&mut self) -> Result<(), HostStop>
        ensures does { Does result self.old self.new row.abort }
        ensures keeps { Keeps self.old self.new }
    {
        self.begin()?;
        Err(GUEST_PANIC)
    }

    #[tactic(auto, unfolding(crate::specs::Logs::value_return))]
    pub(crate) fn value_return(&mut self, len: u64, ptr: u64) -> Result<(), HostStop>
        ensures does { Does result self.old self.new (row.value_return len ptr) }
        ensures keeps { Keeps self.old self.new }
    {
        self.begin()?;
        let value = self.bytes_of(len, ptr)?;
        self.short_return(value.inner())?;
        self.pay_outputs(value.inner().len() as u64)?;
        self.set_value(value);
        Ok(())
    }
}
