//! What a guest runs over.

use crate::fault::HostStop;
use crate::memory::Memory;
use nr_wasmtypes::{Exceeded, HostFn};

/// A host counts gas and answers the calls of a guest. Its state is data, and its meaning says how much gas a
/// state has left and what a call comes to.
pub trait Host {
    ghost use Rattle.std.specs.Prelude.{◌≡◌, ◌≤◌, length};
    ghost use Rattle.nr_wasmtypes.specs.Host.{host_type};
    ghost use Rattle.nr_wasmmem.specs.Bytes.{KeepsSize};
    ghost use Rattle.nr_wasmmem.specs.Meaning.{HostMeaning, Burns, AnswersCall, IsHost};

    /// What the calls change, as data.
    type State;

    ghost state: { Self → Self.State };

    /// What the calls mean.
    ghost meaning: { HostMeaning Self.State };

    /// The second holds on to what the first did, as to what it borrows.
    ghost keeps: { Self → Self → Type 0 };

    /// Takes `n` of the gas that is left.
    ///
    /// # Errors
    ///
    /// `Exceeded` exactly where `n` passes the gas that is left; then none is left.
    fn burn(&mut self, n: u128) -> Result<(), Exceeded>
        ensures burns { Burns meaning n result (state self.old) (state self.new) }
        ensures keeps { keeps self.old self.new };

    /// Calls a function of the host, which gives a number exactly where it has a result. It never raises the
    /// gas that is left, and leaves the size of the guest's memory.
    ///
    /// # Errors
    ///
    /// `Gas` and `Fault` as the host means the call; `Memory` where memory ran out, after which nothing is
    /// said of the state but that no more gas is left.
    fn call(
        &mut self,
        f: HostFn,
        args: &[u64],
        memory: &mut Memory,
    ) -> Result<Option<u64>, HostStop>
        requires { length args.now ≡ length (host_type f).params }
        ensures answers { AnswersCall result (state self.new) memory.new.bytes
            (meaning.call (record { host = state self.old; memory = memory.old.bytes }) f args.now) }
        ensures gas { meaning.gas (state self.new) ≤ meaning.gas (state self.old) }
        ensures size { KeepsSize memory.old memory.new }
        ensures keeps { keeps self.old self.new };

    /// What every host promises.
    ghost law: { IsHost meaning };

    ghost keeps_here: { (a : Self) → keeps a a };

    ghost keeps_on: { (a b c : Self) → keeps a b → keeps b c → keeps a c };
}
