//! What contracts see of a host context.

use nr_bytes::{Blob, List};
use nr_config::Config;
use nr_guest::Registers;
use nr_promises::PromiseBook;
use nr_state::{CallContext, Returned, ShardState};
use nr_store::PlainStore;
use std::marker::Model;

/// Gas as data.
#[derive(Drop)]
pub struct Gas {
    pub burnt: u64,
    pub promised: u64,
    pub limit: u64,
}

/// The world of a shard as data. No such value is made.
#[derive(Drop)]
pub struct ShownWorld {
    state: ShardState<PlainStore>,
}

impl Model for ShownWorld {
    ghost use Rattle.nr_state.specs.Codes.{world_code};
    ghost use Rattle.nr_state.specs.World.{World};

    ghost Value = { World };

    ghost coded = { world_code };

    ghost view = { λ w. w.state.world };
}

/// What the bindings of a call work on, as data. Contracts see a host so, whatever its store is; no such value
/// is made.
#[derive(Drop)]
pub struct HostState {
    pub context: CallContext,
    pub config: Config,
    pub gas: Gas,
    pub registers: Registers,
    /// The bytes of the guest's memory, while a binding runs.
    pub guest: Blob,
    pub world: ShownWorld,
    pub book: PromiseBook,
    pub logs: List<Blob>,
    pub returned: Returned,
}
