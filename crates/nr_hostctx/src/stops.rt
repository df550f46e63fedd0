//! Why bindings stop a call.

ghost use Rattle.std.specs.Prelude.{◌≡◌};
ghost use Rattle.nr_hostctx.specs.Faults.{guest_stop, promise_stop};

use nr_guest::GuestFault;
use nr_promises::PromiseFault;
use nr_wasmmem::HostStop;

pub(crate) const BAD_REGISTER: HostStop = HostStop::Fault { kind: 1 };

pub(crate) const OUT_OF_BOUNDS: HostStop = HostStop::Fault { kind: 2 };

pub(crate) const REGISTER_LIMIT: HostStop = HostStop::Fault { kind: 3 };

pub(crate) const BAD_UTF8: HostStop = HostStop::Fault { kind: 4 };

pub(crate) const BAD_ACCOUNT_ID: HostStop = HostStop::Fault { kind: 5 };

pub(crate) const BAD_PROMISE: HostStop = HostStop::Fault { kind: 6 };

pub(crate) const EMPTY_METHOD: HostStop = HostStop::Fault { kind: 7 };

pub(crate) const BALANCE_EXCEEDED: HostStop = HostStop::Fault { kind: 8 };

pub(crate) const KEY_TOO_LONG: HostStop = HostStop::Fault { kind: 9 };

pub(crate) const VALUE_TOO_LONG: HostStop = HostStop::Fault { kind: 10 };

pub(crate) const TOO_MANY_LOGS: HostStop = HostStop::Fault { kind: 11 };

pub(crate) const TOO_MANY_PROMISES: HostStop = HostStop::Fault { kind: 12 };

pub(crate) const BAD_RESULT: HostStop = HostStop::Fault { kind: 13 };

pub(crate) const GUEST_PANIC: HostStop = HostStop::Fault { kind: 14 };

pub(crate) const RETURN_TOO_LONG: HostStop = HostStop::Fault { kind: 15 };

pub(crate) const BAD_PUBLIC_KEY: HostStop = HostStop::Fault { kind: 16 };

pub(crate) const JOINT: HostStop = HostStop::Fault { kind: 17 };

pub(crate) const TOO_MANY_ACTIONS: HostStop = HostStop::Fault { kind: 18 };

pub(crate) const TOO_MANY_INPUTS: HostStop = HostStop::Fault { kind: 19 };

pub(crate) fn guest_stop(fault: GuestFault) -> HostStop
    ensures { result ≡ guest_stop fault }
{
    match fault {
        GuestFault::BadRegister => BAD_REGISTER,
        GuestFault::OutOfBounds => OUT_OF_BOUNDS,
        GuestFault::RegisterLimit => REGISTER_LIMIT,
        GuestFault::Memory => HostStop::Memory,
    }
}

pub(crate) fn promise_stop(fault: PromiseFault) -> HostStop
    ensures { result ≡ promise_stop fault }
{
    match fault {
        PromiseFault::BadIndex => BAD_PROMISE,
        PromiseFault::Joint => JOINT,
        PromiseFault::TooMany => TOO_MANY_PROMISES,
        PromiseFault::TooManyActions => TOO_MANY_ACTIONS,
        PromiseFault::TooManyInputs => TOO_MANY_INPUTS,
        PromiseFault::Memory => HostStop::Memory,
    }
}
