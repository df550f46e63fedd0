//! Calls that always fail.

use nr_config::Config;
use nr_state::{CallContext, CallEnd, CallStop, Caller, ShardState};
use nr_triedef::Store;
use std::alloc::Global;

/// A caller whose calls fail so, and burn so much gas, or all of theirs.
#[derive(Clone, Copy)]
pub(crate) struct Refuser {
    pub(crate) config: Config,
    pub(crate) kind: u32,
    pub(crate) part: u32,
    pub(crate) burnt: u64,
}

impl<S: Store> Caller<S> for Refuser {
    ghost use Rattle.nr_action_tests.specs.Refused.{refused, refused_law, refused_local};

    ghost config = { λ caller. caller.config };

    ghost meaning = { λ caller. refused caller.kind caller.part caller.burnt };

    ghost law = { λ caller. refused_law caller.config caller.kind caller.part caller.burnt };

    ghost local = { λ caller. refused_local caller.kind caller.part caller.burnt };

    fn call(
        &self,
        _alloc: Global,
        _state: &mut ShardState<S>,
        context: &CallContext,
    ) -> Result<CallEnd, CallStop> {
        Err(CallStop::Failed {
            kind: self.kind,
            part: self.part,
            burnt: self.burnt.min(context.gas),
        })
    }
}
