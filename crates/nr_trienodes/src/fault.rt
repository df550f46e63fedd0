//! Why nodes can't be added.

ghost use Rattle.std.specs.Prelude.{◌≡◌};
ghost use Rattle.nr_trienodes.specs.declared.fault.NodesFault.TheVariants.{Memory};

use std::alloc::AllocError;
use thiserror::Error;

/// Why a change of a trie was refused.
#[derive(Clone, Copy, Debug, PartialEq, Eq, Error)]
pub enum NodesFault {
    /// The arena has no room for the nodes of the call's key or keys. `nodes` is the number of nodes
    /// held.
    #[error("{nodes} nodes are held, and there is no room for more")]
    Full { nodes: u32 },
    /// Memory ran out.
    #[error("memory ran out")]
    Memory,
}

impl From<AllocError> for NodesFault {
    ghost from_gives = { λ f e. e ≡ Memory };

    fn from(_: AllocError) -> NodesFault {
        NodesFault::Memory
    }
}
