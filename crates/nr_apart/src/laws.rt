//! What stands in a shard lives there. Each function here does nothing when it runs: its contract is the law.

ghost use Rattle.std.specs.Prelude.{ℕ, List};
ghost use Rattle.nr_apart.specs.Apart.{StartsApart, StaysApart};
ghost use Rattle.nr_blocks.specs.declared.genesis.Genesis.{Genesis};
ghost use Rattle.nr_chunk.specs.Chain.{Chain, IsChain};
ghost use Rattle.nr_chunk.specs.Start.{genesis_start};
ghost use Rattle.nr_cut.specs.Cut.{carried, cut_worlds};
ghost use Rattle.nr_records.specs.declared.receipt.Receipt.{Receipt};
ghost use Rattle.nr_state.specs.Local.{IsLocal};
ghost use Rattle.nr_state.specs.World.{World};

/// Where each shard starts with what lives in it, it has nothing else after any of its chunks.
pub fn apart_laws()
    // Where calls look at nothing but the current account.
    ensures after { (x : Chain) → IsChain x → IsLocal x.call → StartsApart x.start → StaysApart x }
    // A genesis starts so.
    ensures genesis { (g : Genesis) → StartsApart (genesis_start g) }
    // So does the cut of any worlds and lists.
    ensures cut { (new : List (List ℕ)) (below : ℕ) (ws : List World) (lists : List (List Receipt))
        → StartsApart (record {
          boundaries = new;
          below = below;
          worlds = cut_worlds new ws;
          carried = carried new lists;
        }) }
{}
