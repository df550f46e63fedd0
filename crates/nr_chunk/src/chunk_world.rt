//! A shard between its chunks, as those who drive it see it.

ghost use Rattle.std.specs.Prelude.{◌≡◌, IfOk};
ghost use Rattle.std.specs.FinMap as map;
ghost use Rattle.nr_columns.specs.Entries.{pairs_of};
ghost use Rattle.nr_state.specs.Flat.{flat};
ghost use Rattle.nr_state.specs.FromEntries.{AreWholeEntries, world_from};

use crate::state::State;
use nr_bytes::List;
use nr_columns::Entry;
use nr_records::Receipt;
use nr_state::listings;
use std::alloc::{AllocError, Global};
use std::marker::Model;

/// A shard between its chunks. Contracts see its world, what it carries, and the configuration under which its state is
/// kept.
#[derive(Drop)]
pub struct ChunkWorld {
    pub(crate) state: State,
    /// What its next chunk takes at the end of its opening: nothing behind a seal.
    pub(crate) carried: List<Receipt>,
}

impl Model for ChunkWorld {
    ghost use Rattle.std.specs.Prelude.{◌≡◌, true, []};
    ghost use Rattle.nr_chunk.specs.Views.{Kept};
    ghost use Rattle.nr_chunk.specs.Codes.{kept_code};

    ghost Value = { Kept };

    ghost coded = { kept_code };

    ghost view = { λ w. record { config = w.state.config; world = w.state.world; carried = w.carried } };

    ghost invariant = { λ w. (w.state.whole ≡ true) × (w.state.marks ≡ []) };
}

impl ChunkWorld {
    /// All trie entries of the world, in the order of their keys' bytes. The world can be made of
    /// them again; what the shard carries isn't among them.
    ///
    /// # Errors
    ///
    /// Where memory runs out.
    pub fn entries(&self) -> Result<List<Entry>, AllocError>
        ensures entries { IfOk result (λ found. pairs_of found ≡ map.entries (flat self.now.world)) }
        ensures whole { IfOk result AreWholeEntries }
        ensures world { IfOk result (λ found. world_from found ≡ self.now.world) }
    {
        self.state.entries()
    }

    /// What the shard's next chunk takes at the end of its opening.
    pub fn carried(&self) -> &List<Receipt>
        ensures { result.now ≡ self.now.carried }
    {
        &self.carried
    }

    /// All delayed receipts, the front first.
    ///
    /// # Errors
    ///
    /// Where memory runs out.
    pub fn delayed(&self, alloc: Global) -> Result<List<Receipt>, AllocError>
        ensures { IfOk result (λ found. found ≡ self.now.world.delayed) }
    {
        listings::delayed(alloc, &self.state)
    }

    /// How many delayed receipts were served.
    ///
    /// # Errors
    ///
    /// Where memory runs out.
    pub fn served(&self) -> Result<u64, AllocError>
        ensures { IfOk result (λ served. served ≡ self.now.world.served) }
    {
        listings::served(&self.state)
    }
}
