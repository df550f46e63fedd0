//! What a chunk that is gathered of a chain and run again tells of the chain. Each function here does nothing when it
//! runs: its contract is the law.

ghost use Rattle.std.specs.Prelude.{ℕ};
ghost use Rattle.nr_chunk.specs.Chain.{Chain, IsChain};
ghost use Rattle.nr_recheck_laws.specs.Again.{IsAnswered, IsGathered, IsSerialReport};
ghost use Rattle.nr_records.specs.declared.chunk_result.ChunkResult.{ChunkResult};
ghost use Rattle.nr_state.specs.Local.{IsLocal};

use nr_recheck::laws::recheck_laws;

/// What is gathered for a chunk of a chain is run again to the report that the serial run of the chain has.
pub fn again_laws()
    // It is answered with a report, where the state before it goes with the texts that were gathered.
    ensures answers { (x : Chain) (shard below : ℕ) → IsChain x → IsGathered x shard below → IsAnswered x shard below }
    // Each report that it is answered with is the serial run's, its root too, where calls look at nothing but the
    // current account.
    ensures tells { (x : Chain) (shard below : ℕ) (report : ChunkResult) → IsChain x → IsLocal x.call
        → IsGathered x shard below → IsSerialReport x shard below report }
{
    recheck_laws();
}
