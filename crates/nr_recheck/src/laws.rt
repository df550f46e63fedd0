//! What a chunk that is run again tells. Each function here does nothing when it runs: its contract is the law.

ghost use Rattle.std.specs.Prelude.{◌≡◌, Ok};
ghost use Rattle.nr_config.specs.Config.{Config};
ghost use Rattle.nr_gathered.specs.declared.gathered.Gathered.{Gathered};
ghost use Rattle.nr_records.specs.declared.chunk_result.ChunkResult.{ChunkResult};
ghost use Rattle.nr_state.specs.Calls.{Called};
ghost use Rattle.nr_state.specs.Local.{IsLocal};
ghost use Rattle.nr_state.specs.World.{World};
ghost use Rattle.nr_state.specs.declared.calls.CallContext.{CallContext};
ghost use Rattle.nr_recheck.specs.Laws.{EndsWell, HasIds, IsGatheredFor, TellsChunk, GoesWith};
ghost use Rattle.nr_recheck.specs.Rechecking.{rechecked};

use nr_worlds::laws::{queue_laws, world_laws};

/// What a chunk that is run again tells of the run from a whole state.
pub fn recheck_laws()
    // Where a report is given, it is that of the chunk from every whole state that the texts go with, its root too.
    ensures tells { (c : Config) (call : World → CallContext → Called) (g : Gathered) (r : ChunkResult) → IsLocal call
        → HasIds g → EndsWell c call g → rechecked c call g ≡ Ok r → TellsChunk c call g r }
    // From what is gathered for the chunk a report is given, where the whole state goes with the texts.
    ensures answers { (c : Config) (call : World → CallContext → Called) (g : Gathered) (w : World) → HasIds g
        → IsGatheredFor c g w → GoesWith c g w → (r : ChunkResult) × (rechecked c call g ≡ Ok r) }
{
    queue_laws();
    world_laws();
}
