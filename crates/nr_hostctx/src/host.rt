//! The bindings as a host of the machine.

ghost use Rattle.std.specs.Prelude.{◌≡◌, false, [], length};
ghost use Rattle.nr_wasmtypes.specs.Host.{host_type};
ghost use Rattle.nr_hostctx.specs.Acts.{Does};
ghost use Rattle.nr_hostctx.specs.Host as host;
ghost use Rattle.nr_hostctx.specs.Rows.{row};
ghost use Rattle.nr_hostctx.specs.State.{state_of, Keeps, borrowed, is_whole};

use crate::context::HostContext;
use crate::seen::HostState;
use nr_triedef::Store;
use nr_wasmmem::{Host, HostStop, Memory};
use nr_wasmtypes::{Exceeded, HostFn};
use std::mem::swap;

impl<'a, S: Store> HostContext<'a, S> {
    /// Whether no call wanted for memory. Where one did, no more can be said of the state.
    pub fn whole(&self) -> bool
        ensures { result ≡ is_whole self.now }
    {
        self.callee.whole()
    }

    /// Answers a call of a binding, and never leaves more gas.
    fn answer_within(&mut self, f: HostFn, args: &[u64]) -> Result<Option<u64>, HostStop>
        requires { length args.now ≡ length (host_type f).params }
        ensures does { Does result self.old self.new (row f args.now) }
        ensures gas { host.LeavesGas result self.old self.new }
        ensures keeps { Keeps self.old self.new }
    {
        self.answer(f, args)
    }

    /// After want of memory no gas is left, and each call wants for memory.
    fn give_up(&mut self)
        ensures gas { host.gas_left (state_of self.new).gas ≡ 0 }
        ensures whole { is_whole self.new ≡ false }
        ensures borrows { borrowed self.new ≡ borrowed self.old }
        ensures guest { self.new.guest ≡ self.old.guest }
    {
        self.counter.burnt = self.counter.limit - self.counter.promised;
        self.callee.give_up();
    }
}

impl<'a, S: Store> Host for HostContext<'a, S> {
    type State = HostState;

    ghost use Rattle.nr_hostctx.specs.Host.{holds_here, holds_on};
    ghost use Rattle.nr_hostctx.specs.Laws.{meaning_is_host};

    ghost state = { λ h. host.with_guest (state_of h) [] };

    ghost meaning = { host.meaning };

    ghost keeps = { host.Holds };

    fn burn(&mut self, n: u128) -> Result<(), Exceeded> {
        self.counter.burn(n)
    }

    fn call(
        &mut self,
        f: HostFn,
        args: &[u64],
        memory: &mut Memory,
    ) -> Result<Option<u64>, HostStop> {
        if !self.whole() {
            return Err(HostStop::Memory);
        }
        swap(&mut self.guest, memory);
        let answer = self.answer_within(f, args);
        swap(&mut self.guest, memory);
        match answer {
            Ok(value) => Ok(value),
            Err(HostStop::Gas) => Err(HostStop::Gas),
            Err(HostStop::Fault { kind }) => Err(HostStop::Fault { kind }),
            Err(HostStop::Memory) => {
                self.give_up();
                Err(HostStop::Memory)
            }
        }
    }

    ghost law = { meaning_is_host };

    ghost keeps_here = { holds_here };

    ghost keeps_on = { holds_on };
}
