//! What bindings burn and promise.

ghost use Rattle.std.specs.Prelude.{◌≡◌, ℕ, ◌+◌, ◌*◌, ◌^◌, ◌≤◌};
ghost use Rattle.nr_wasmmem.specs.declared.fault.HostStop.TheVariants.{Gas};
ghost use Rattle.nr_hostctx.specs.Acts as act;
ghost use Rattle.nr_hostctx.specs.Acts.{Does};
ghost use Rattle.nr_hostctx.specs.State.{state_of, Keeps};

use crate::context::HostContext;
use nr_config::entries::{HOST_BASE, HOST_BYTE};
use nr_triedef::Store;
use nr_wasmmem::HostStop;

impl<'a, S: Store> HostContext<'a, S> {
    /// Burns gas.
    #[tactic(auto, unfolding(crate::specs::Acts::burn))]
    pub(crate) fn spend(&mut self, n: u128) -> Result<(), HostStop>
        ensures does { Does result self.old self.new (act.burn n) }
        ensures keeps { Keeps self.old self.new }
    {
        match self.counter.burn(n) {
            Ok(()) => Ok(()),
            Err(_) => Err(HostStop::Gas),
        }
    }

    /// Promises gas to other receipts.
    #[tactic(auto, unfolding(crate::specs::Acts::promise))]
    pub(crate) fn promise(&mut self, n: u128) -> Result<(), HostStop>
        ensures does { Does result self.old self.new (act.promise n) }
        ensures keeps { Keeps self.old self.new }
    {
        match self.counter.promise(n) {
            Ok(()) => Ok(()),
            Err(_) => Err(HostStop::Gas),
        }
    }

    /// Stops a call that would burn or promise more gas than any call has.
    #[tactic(auto, using(crate::proofs::Spending::burns_all, crate::proofs::Spending::promises_none))]
    pub(crate) fn exceed(&mut self) -> HostStop
        ensures stop { result ≡ Gas }
        ensures burns { (n : ℕ) → 2 ^ 64 ≤ n → act.Leads self.old self.new (act.burn n (state_of self.old))
            (act.Stops (state_of self.new) Gas) }
        ensures promises { (n : ℕ) → 2 ^ 64 ≤ n → act.Leads self.old self.new (act.promise n (state_of self.old))
            (act.Stops (state_of self.new) Gas) }
        ensures keeps { Keeps self.old self.new }
    {
        let limit = self.counter.limit;
        self.counter.burnt = limit - self.counter.promised;
        HostStop::Gas
    }

    /// Burns a cost, and another one for each of so many bytes or items.
    pub(crate) fn spend_for(&mut self, base: u64, each: u64, count: u64) -> Result<(), HostStop>
        ensures does { Does result self.old self.new (act.burn (base + each * count)) }
        ensures keeps { Keeps self.old self.new }
    {
        self.spend(u128::from(base) + u128::from(each) * u128::from(count))
    }

    /// Burns what each call burns first.
    pub(crate) fn begin(&mut self) -> Result<(), HostStop>
        ensures does { Does result self.old self.new act.begin }
        ensures keeps { Keeps self.old self.new }
    {
        self.spend(u128::from(self.callee.config.entry(HOST_BASE)))
    }

    /// Burns what bytes cost that are read or written.
    pub(crate) fn pay_bytes(&mut self, count: u64) -> Result<(), HostStop>
        ensures does { Does result self.old self.new (act.pay_bytes count) }
        ensures keeps { Keeps self.old self.new }
    {
        self.spend(u128::from(self.callee.config.entry(HOST_BYTE)) * u128::from(count))
    }
}
